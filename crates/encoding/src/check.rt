// Whether a list of calls is run: that every one is a call and has room, before any is.
ghost use Rattle.std.specs.Prelude.{◌≡◌, ◌/◌, length};
ghost use Rattle.encoding.specs.Words.{nothing};
ghost use Rattle.encoding.specs.Lists.{check_from, outcome_in};

use super::words::{Amounts, CALL_LEN, has_room, is_call, nothing, plus, taken_by, words_at};

// Why a list is not run: then nothing was written, and the session is as it was.
#[derive(Clone, Copy)]
pub enum ListError {
    // the settings were refused
    NotOpened,
    // the numbers of the calls are not a multiple of eight, or the answers have not as many places
    Lengths,
    // the call of this index has a kind above 7, an address above 2^32 or a port above 65535
    NoCall(usize),
    // the call of this index takes more of a lent buffer than is left of it
    NoRoom(usize),
}

// Each call in turn: whether it is one, and has room.
fn check_each(calls: &[u64], room: Amounts) -> Result<(), ListError>
    ensures { result ≡ check_from calls.now room (length calls.now / 8) 0 nothing }
{
    let n = calls.len() / CALL_LEN;
    let mut taken = nothing();
    for i in 0..n {
        let w = words_at(calls, 8 * i);
        if !is_call(w) {
            return Err(ListError::NoCall(i));
        }
        let need = taken_by(w);
        if !has_room(taken, need, room) {
            return Err(ListError::NoRoom(i));
        }
        taken = plus(taken, need, room);
    }
    Ok(())
}

// Whether a list is run, with so many places for answers.
pub fn check(calls: &[u64], room: Amounts, answers: usize) -> Result<(), ListError>
    ensures { result ≡ outcome_in calls.now room answers }
{
    if calls.len() % CALL_LEN != 0 {
        return Err(ListError::Lengths);
    }
    if answers != calls.len() {
        return Err(ListError::Lengths);
    }
    check_each(calls, room)
}
