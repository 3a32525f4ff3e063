// The account of a session: each answer noted, and then all of it as lines of text.
use super::list::List;
use super::replies::{Answers, behind, eight_at};
use console::output::Output;
use desk::key::put_rows;
use encoding::words::{taken_by, words_at};
use marking::note::note;
use stream::MOST_OCTETS;
use tally::account::{Account, TABLE, none};
use tally::rows::End;

// A datagram, which is the first n octets, in a room of its own.
fn datagram(octets: &[u8], n: usize) -> [u8; MOST_OCTETS] {
    let mut own = [0; MOST_OCTETS];
    if n <= octets.len().min(MOST_OCTETS) {
        own[..n].copy_from_slice(&octets[..n]);
    }
    own
}

// The answers of all calls.
fn note_all(list: &List, answers: &Answers, table: &mut [u64; TABLE]) -> Account {
    let mut account = none();
    let mut octets = &list.octets[..];
    for i in 0..list.calls {
        let taken = taken_by(words_at(&list.words, 8 * i)).octets;
        let call = eight_at(&list.words, i);
        let answer = eight_at(&answers.words, i);
        // a table has room for as many stretches as a session has calls
        let _ = note(
            table,
            &mut account,
            &call,
            &datagram(octets, taken),
            &answer,
        );
        octets = behind(octets, taken);
    }
    account
}

pub fn tell(list: &List, answers: &Answers, e: End, out: &mut Output) {
    let mut table = [0u64; TABLE];
    let account = note_all(list, answers, &mut table);
    put_rows(out, &table, account, e)
}
