// What a function gave, and whether it is what was expected.
use super::words::decode;

// A double and an f32 stand by their bits, and a refusal by its number in 01. Absent is what 01 gives no number, such as "no
// overload bits". Octets stand in the room that the case was read into, as many as it gave.
#[derive(Clone, Copy)]
pub enum Answer {
    Number(u64),
    Double(u64),
    Refused(u64),
    Absent,
    Octets,
    Nothing,
}

// Room for the octets of a case: the longest packet has 1444.
pub const ROOM: usize = 2048;

fn is_number(n: u64, expected: &[u8]) -> bool {
    text::number(expected) == Some(n)
}

// A word such as r:15.
fn is_refusal(k: u64, w: &[u8]) -> bool {
    match w.strip_prefix(b"r:") {
        Some(number) => is_number(k, number),
        None => false,
    }
}

fn are_octets(came: &[u8], expected: &[u8], room: &mut [u8]) -> bool {
    match decode(expected, room) {
        Some(n) => came == &room[..n],
        None => false,
    }
}

// Whether an answer is what a word spells. came is the octets of the case, and room is for those that are expected.
pub fn is_as(a: Answer, came: &[u8], expected: &[u8], room: &mut [u8]) -> bool {
    match a {
        Answer::Number(n) => is_number(n, expected),
        Answer::Double(b) => is_number(b, expected),
        Answer::Refused(k) => is_refusal(k, expected),
        Answer::Absent => expected == b"none".as_slice(),
        Answer::Octets => are_octets(came, expected, room),
        Answer::Nothing => false,
    }
}
