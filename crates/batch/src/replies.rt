// The answers of a session's calls, as lines of text.
ghost use Rattle.std.specs.Prelude.{◌<◌};

use super::list::{List, WORDS};
use console::output::Output;
use encoding::words::{taken_by, words_at};
use telling::answer;

// Octets of packet buffers, and f32 of Takes.
pub const PACKETS: usize = 2097152;

pub const PLACES: usize = 131072;

// What the calls of a list give, one behind the other: eight numbers of an answer each, packets and samples.
#[derive(Drop)]
pub struct Answers {
    pub words: [u64; WORDS],
    pub packets: [u8; PACKETS],
    pub places: [f32; PLACES],
}

impl Answers {
    pub fn new() -> Answers {
        Answers {
            words: [0; WORDS],
            packets: [0; PACKETS],
            places: [0.0; PLACES],
        }
    }
}

// The numbers of the i-th call, or of its answer.
pub(crate) fn eight_at(words: &[u64; WORDS], i: usize) -> [u64; 8]
    requires { i < 1024 }
{
    let mut own = [0; 8];
    own.copy_from_slice(&words[8 * i..8 * i + 8]);
    own
}

// What is left of a buffer behind what a call took of it.
pub(crate) fn behind<T>(room: &[T], taken: usize) -> &[T] {
    room.get(taken..).unwrap_or(&[])
}

// Those of the calls of a list, to the output.
pub fn tell(list: &List, answers: &Answers, out: &mut Output) {
    let mut packets = &answers.packets[..];
    let mut places = &answers.places[..];
    for i in 0..list.calls {
        let call = words_at(&list.words, 8 * i);
        let taken = taken_by(call);
        let answer = eight_at(&answers.words, i);
        answer::tell(out, call.kind, &answer, packets, places);
        packets = behind(packets, taken.packets);
        places = behind(places, taken.places);
    }
}
