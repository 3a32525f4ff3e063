// What calls bring, and what they are lent: a list of them, or one.
ghost use Rattle.std.specs.Prelude.{◌≡◌, replicate};

use super::words::Words;
use stream::{MOST_NUMBERS, MOST_OCTETS};

// A list of calls: eight numbers each, and their datagrams and waiting numbers, one behind the other.
#[derive(Clone, Copy)]
pub struct Calls<'a> {
    pub words: &'a [u64],
    pub octets: &'a [u8],
    pub numbers: &'a [u32],
}

// One call of a list, with its own parts of what the list brings.
#[derive(Clone, Copy)]
pub struct Call<'a> {
    pub words: Words,
    pub octets: &'a [u8],
    pub numbers: &'a [u32],
}

// One call: its numbers, its datagram and its waiting numbers, in rooms for the most of each.
#[derive(Drop)]
pub struct Asked {
    pub call: [u64; 8],
    pub octets: [u8; MOST_OCTETS],
    pub numbers: [u32; MOST_NUMBERS],
}

impl Asked {
    // Zeros alone.
    pub fn new() -> Asked
        ensures { result ≡ record { call = replicate 8 0; octets = replicate 2048 0; numbers = replicate 8193 0 } }
    {
        Asked {
            call: [0; 8],
            octets: [0; MOST_OCTETS],
            numbers: [0; MOST_NUMBERS],
        }
    }
}

const SILENCE: f32 = 0.0;

// What one call gives: its packets, its samples, and its answer's eight numbers.
#[derive(Drop)]
pub struct Given {
    pub packets: [u8; 8192],
    pub places: [f32; 1024],
    pub answers: [u64; 8],
}

impl Given {
    // Zeros alone.
    pub fn new() -> Given
        ensures { result ≡ record { packets = replicate 8192 0; places = replicate 1024 SILENCE; answers = replicate 8 0 } }
    {
        Given {
            packets: [0; 8192],
            places: [SILENCE; 1024],
            answers: [0; 8],
        }
    }
}
