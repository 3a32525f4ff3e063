// The I/Q datagram of samples that a rule gives but for one, written over the octets of a case.
ghost use Rattle.std.specs.Prelude.{◌<◌};

use super::reply_cases::of_write;
use casebook::answer::Answer;
use radio_packets::datagram::iq_datagram;

// The most samples of a case.
const PLACES: usize = 512;

// Numbers of 24 bits.
const RANGE: u32 = 16777216;

// The number whose 24 bits these are: the sign goes on to 32.
fn of_24(v: u32) -> i32
    requires { v < 16777216 }
{
    if v < 8388608 {
        return v.cast_signed();
    }
    (4278190080 + v).cast_signed()
}

// The rule: the first number, and from each to the next the step, modulo 2^24.
fn fill(out: &mut [i32], first: u32, step: u32)
    requires { (first < 16777216) × (step < 16777216) }
{
    let mut v = first;
    for x in out.iter_mut() {
        *x = of_24(v);
        v = (v + step) % RANGE;
    }
}

// A place past the samples changes none.
fn put(samples: &mut [i32], place: u64, x: i32) {
    if place < samples.len() as u64 {
        samples[place as usize] = x;
    }
}

fn sent(seq: u32, n: [u64; 6], samples: &mut [i32], p: &mut [u8]) -> Answer {
    let first = (n[2] % 16777216) as u32;
    let step = (n[3] % 16777216) as u32;
    fill(samples, first, step);
    put(samples, n[4], ((n[5] % 4294967296) as u32).cast_signed());
    of_write(iq_datagram(seq, samples, p))
}

// n is the count, how many samples there are, the first of the rule and its step, and a place with the number that stands there
// instead, by its 32 bits.
pub(crate) fn datagram(n: [u64; 6], p: &mut [u8]) -> Answer {
    if n[0] > 4294967295 {
        return Answer::Nothing;
    }
    if n[1] > 512 {
        return Answer::Nothing;
    }
    let many = n[1] as usize;
    let mut samples = [0i32; PLACES];
    sent(n[0] as u32, n, &mut samples[0..many], p)
}
