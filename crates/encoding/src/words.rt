// A call as eight numbers, and what it takes from the front of each lent buffer.
ghost use Rattle.std.specs.Prelude.{◌≡◌, ◌+◌, ◌≤◌, length};
ghost use Rattle.encoding.specs.Words as Encoding;

use super::kind::Kind;

// The numbers of a call. Those that its kind has no use for are not read.
pub const CALL_LEN: usize = 8;

// Where each stands.
pub const KIND: usize = 0;

pub const READING: usize = 1;

pub const LATER: usize = 2;

pub const ADDRESS: usize = 3;

pub const PORT: usize = 4;

pub const OCTETS: usize = 5;

pub const NUMBERS: usize = 6;

pub const PLACES: usize = 7;

// In place of an IPv4 address: the sender has an IPv6 one.
pub const IPV6: u64 = 4294967296;

#[derive(Clone, Copy)]
pub struct Words {
    // that of a Kind
    pub kind: u64,
    pub reading: u64,
    // an Arrival's later reading
    pub later: u64,
    // its sender: an IPv4 address, the first octet the highest, or IPV6
    pub address: u64,
    pub port: u64,
    // how many octets its datagram has
    pub octets: u64,
    // how many numbers wait
    pub numbers: u64,
    // how long the lent buffer is: octets of packets, or f32 of a Take
    pub places: u64,
}

// So much of each lent buffer.
#[derive(Clone, Copy)]
pub struct Amounts {
    pub octets: usize,
    pub numbers: usize,
    pub packets: usize,
    pub places: usize,
}

pub fn nothing() -> Amounts
    ensures { result ≡ Encoding.nothing }
{
    Amounts {
        octets: 0,
        numbers: 0,
        packets: 0,
        places: 0,
    }
}

pub fn words_at(calls: &[u64], at: usize) -> Words
    requires { at + 8 ≤ length calls.now }
    ensures { result ≡ Encoding.words_at calls.now at }
{
    Words {
        kind: calls[at],
        reading: calls[at + READING],
        later: calls[at + LATER],
        address: calls[at + ADDRESS],
        port: calls[at + PORT],
        octets: calls[at + OCTETS],
        numbers: calls[at + NUMBERS],
        places: calls[at + PLACES],
    }
}

pub fn is_call(w: Words) -> bool
    ensures { result ≡ Encoding.is_call w }
{
    Kind::of(w.kind).is_some() && w.address <= IPV6 && w.port <= 65535
}

// What a call takes.
pub fn taken_by(w: Words) -> Amounts
    ensures { result ≡ Encoding.taken_by w }
{
    let Some(kind) = Kind::of(w.kind) else {
        return nothing();
    };
    let places = w.places as usize;
    match kind {
        Kind::Arrival => Amounts {
            octets: w.octets as usize,
            numbers: w.numbers as usize,
            packets: places,
            places: 0,
        },
        Kind::Pass | Kind::Close => Amounts {
            packets: places,
            ..nothing()
        },
        Kind::Take => Amounts {
            places,
            ..nothing()
        },
        Kind::Begin | Kind::TakeMissing | Kind::TakeDiscontinuity | Kind::TakeStalled => nothing(),
    }
}

// What is taken, and a call's need, are within the room.
pub fn has_room(taken: Amounts, need: Amounts, room: Amounts) -> bool
    requires { Encoding.Within taken room }
    ensures { result ≡ Encoding.within (Encoding.plus taken need) room }
{
    if need.octets > room.octets - taken.octets {
        return false;
    }
    if need.numbers > room.numbers - taken.numbers {
        return false;
    }
    if need.packets > room.packets - taken.packets {
        return false;
    }
    need.places <= room.places - taken.places
}

fn sum(a: usize, b: usize, room: usize) -> usize
    requires { a + b ≤ room }
    ensures { result ≡ a + b }
{
    a + b
}

pub fn plus(taken: Amounts, need: Amounts, room: Amounts) -> Amounts
    requires { Encoding.Within (Encoding.plus taken need) room }
    ensures { Encoding.Adds taken need room result }
{
    Amounts {
        octets: sum(taken.octets, need.octets, room.octets),
        numbers: sum(taken.numbers, need.numbers, room.numbers),
        packets: sum(taken.packets, need.packets, room.packets),
        places: sum(taken.places, need.places, room.places),
    }
}
