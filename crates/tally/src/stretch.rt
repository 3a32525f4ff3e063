// A stretch, arrival by arrival, and the sums over stretches. Sums are modulo 2^64.
ghost use Rattle.std.specs.Prelude.{◌≡◌};
ghost use Rattle.tally.specs.Stretch.{first_of, more_of, plus_of};

use super::record::Record;
use stream::SAMPLES_PER_DATAGRAM;

// It begins with the session's first arrival, or with one told Restart.
#[derive(Clone, Copy)]
pub struct Stretch {
    // the first arrival's reading, and that of the last accepted one
    pub at: u64,
    pub last: u64,
    // the first arrival's number
    pub first: u64,
    // the missing that was told with it
    pub restart: u64,
    // the highest number, counted on from the first, past 2^32
    pub highest: u64,
    // of accepted arrivals
    pub samples: u64,
    // told after the first arrival
    pub missing: u64,
}

// That of one arrival.
#[tactic(auto, unfolding(crate::specs::Stretch::first_of))]
pub fn first(x: Record) -> Stretch
    ensures { result ≡ first_of x }
{
    let at = x.reading;
    Stretch {
        at,
        last: at,
        first: u64::from(x.number),
        restart: x.missing,
        highest: u64::from(x.number),
        samples: SAMPLES_PER_DATAGRAM,
        missing: 0,
    }
}

// An accepted arrival more, which is told in order or a gap.
#[tactic(auto, unfolding(crate::specs::Stretch::more_of))]
pub fn more(s: Stretch, x: Record) -> Stretch
    ensures { result ≡ more_of s x }
{
    let number = x.number;
    let step = number.wrapping_sub((s.highest % 4294967296) as u32);
    Stretch {
        at: s.at,
        last: x.reading,
        first: s.first,
        restart: s.restart,
        highest: s.highest.wrapping_add(u64::from(step)),
        samples: s.samples.wrapping_add(SAMPLES_PER_DATAGRAM),
        missing: s.missing.wrapping_add(x.missing),
    }
}

// Over several stretches.
#[derive(Clone, Copy)]
pub struct Sums {
    pub samples: u64,
    pub missing: u64,
    pub restart: u64,
}

// One stretch more.
#[tactic(auto, unfolding(crate::specs::Stretch::plus_of))]
pub fn plus(t: Sums, s: Stretch) -> Sums
    ensures { result ≡ plus_of t s }
{
    Sums {
        samples: t.samples.wrapping_add(s.samples),
        missing: t.missing.wrapping_add(s.missing),
        restart: t.restart.wrapping_add(s.restart),
    }
}
