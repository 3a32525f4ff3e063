// One call of a list, on its own parts of the lent buffers.
ghost use Rattle.std.specs.Prelude.{◌≡◌, true, ◌≤◌, ◌+◌, length};
ghost use Rattle.model.specs.Gives.{joined};
ghost use Rattle.encoding.specs.Words.{is_call, Within};
ghost use Rattle.encoding.specs.Lists.{between};
ghost use Rattle.turns.specs.Turns.{Turns, TurnsAt};

use super::call::call;
use answers::put;
use encoding::lent::{Call, Calls};
use encoding::words::{Amounts, Words};
use model::session::Session;
use stream::F32_PER_DATAGRAM;

// Its answer goes to eight places.
fn turn(
    s: &mut Session,
    samples: &mut [f32; F32_PER_DATAGRAM],
    c: Call,
    packets: &mut [u8],
    places: &mut [f32],
    answers: &mut [u64],
)
    requires { (is_call c.words ≡ true) × (length answers.old ≡ 8) }
    ensures { Turns c.entry.words (joined s.old samples.old) c.entry.octets.now c.entry.numbers.now packets.old places.old
        (joined s.new samples.new) packets.new places.new answers.new }
{
    let r = call(s, samples, c, packets, places);
    put(r.answer, r.streams, answers)
}

// A call of a list: its numbers, what was taken before it and with it, and where its answer goes.
#[derive(Clone, Copy)]
pub struct Part {
    pub words: Words,
    pub from: Amounts,
    pub to: Amounts,
    pub at: usize,
}

// One call of a list: its datagram and numbers are what lies between the two amounts; of the other buffers its own parts are lent, and
// its answer goes to eight places from `at` on.
pub fn turn_at(
    s: &mut Session,
    samples: &mut [f32; F32_PER_DATAGRAM],
    list: Calls,
    part: Part,
    packets: &mut [u8],
    places: &mut [f32],
    answers: &mut [u64],
)
    requires { (is_call part.words ≡ true) × (part.at + 8 ≤ length answers.old) × Within part.from part.to × (part.to.octets ≤ length list.octets.now) ×
        (part.to.numbers ≤ length list.numbers.now) × (part.to.packets ≤ length packets.old) × (part.to.places ≤ length places.old) }
    ensures { TurnsAt part.words part.from part.to part.at (joined s.old samples.old) list.entry.octets.now list.entry.numbers.now
        packets.old places.old answers.old (joined s.new samples.new)
        packets.new places.new answers.new }
{
    let from = part.from;
    let to = part.to;
    let c = Call {
        words: part.words,
        octets: &list.octets[from.octets..to.octets],
        numbers: &list.numbers[from.numbers..to.numbers],
    };
    turn(
        s,
        samples,
        c,
        &mut packets[from.packets..to.packets],
        &mut places[from.places..to.places],
        &mut answers[part.at..part.at + 8],
    )
}
