// The calls of a session, gathered one behind the other as replay takes them: eight numbers each, datagrams, waiting numbers.
ghost use Rattle.std.specs.Prelude.{◌≡◌, ◌+◌, ◌≤◌, length, IfOk, OnOk, OnErr};

use encoding::lent::Asked;
use encoding::words::{taken_by, words_at};

// The most calls of a session, and their numbers. The other rooms are enough for so many that begin, pass, arrive and take in turn.
pub const CALLS: usize = 1024;

pub const WORDS: usize = 8192;

// Octets of datagrams.
pub const OCTETS: usize = 524288;

// Waiting numbers: eight calls with the most of them.
pub const NUMBERS: usize = 65544;

// So many calls with their numbers, and what they take of datagrams and waiting numbers, at the front of the rooms.
#[derive(Clone, Copy)]
pub struct List {
    pub calls: usize,
    pub words: [u64; WORDS],
    pub octets: [u8; OCTETS],
    pub numbers: [u32; NUMBERS],
    taken_octets: usize,
    taken_numbers: usize,
    pub ghost calls_within: { calls ≤ 1024 },
    pub ghost octets_within: { taken_octets ≤ 524288 },
    pub ghost numbers_within: { taken_numbers ≤ 65544 },
}

// A call has no room behind the others.
#[derive(Clone, Copy, Debug, PartialEq, Eq)]
pub struct NoRoom;

// Puts the first n of `from` behind the first `at` of `to`; where they end then.
fn append<T: Copy>(to: &mut [T], at: usize, from: &[T], n: usize) -> Result<usize, NoRoom>
    requires { at ≤ length to.old }
    ensures { IfOk result (λ end. (end ≡ at + n) × (end ≤ length to.new)) }
{
    let front = from.get(..n).ok_or(NoRoom)?;
    let room = to[at..].get_mut(..n).ok_or(NoRoom)?;
    room.copy_from_slice(front);
    Ok(at + n)
}

impl List {
    pub fn new() -> List
        ensures { result.calls ≡ 0 }
    {
        List {
            calls: 0,
            words: [0; WORDS],
            octets: [0; OCTETS],
            numbers: [0; NUMBERS],
            taken_octets: 0,
            taken_numbers: 0,
        }
    }

    // A session was just opened.
    pub fn clear(&mut self)
        ensures { self.new.calls ≡ 0 }
    {
        self.calls = 0;
        self.taken_octets = 0;
        self.taken_numbers = 0;
    }

    // A call more, with what it takes of its datagram and its waiting numbers.
    pub fn add(&mut self, asked: &Asked) -> Result<(), NoRoom>
        ensures added { OnOk result (self.new.calls ≡ self.old.calls + 1) }
        ensures full { OnErr result (self.new.calls ≡ self.old.calls) }
    {
        let need = taken_by(words_at(&asked.call, 0));
        append(&mut self.words, 8 * self.calls, &asked.call, 8)?;
        let octets = append(
            &mut self.octets,
            self.taken_octets,
            &asked.octets,
            need.octets,
        )?;
        let numbers = append(
            &mut self.numbers,
            self.taken_numbers,
            &asked.numbers,
            need.numbers,
        )?;
        self.calls += 1;
        self.taken_octets = octets;
        self.taken_numbers = numbers;
        Ok(())
    }
}
