// The samples of a datagram, and what a stream's elapsed time and rate give: 01, Numbers in the stream.
#![tactic(auto)]

ghost use Rattle.std.specs.Prelude.{◌≡◌};
ghost use Rattle.stream.specs.Elapsed.{jump_limit, restart_missing, account_time, covered_time, below_half};

use double::time::{nanoseconds, seconds};
use double::whole::{ceil_u64, floor_u64, round};

// The I/Q pairs of a datagram.
pub const SAMPLES_PER_DATAGRAM: u64 = 238;

// The bits of I and of Q in it.
pub const BITS_PER_SAMPLE: u16 = 24;

// The f32 of a datagram: I and Q of each pair.
pub const F32_PER_DATAGRAM: usize = 2 * SAMPLES_PER_DATAGRAM as usize;

// The pairs as a double.
const PER_DATAGRAM: f64 = 238.0;

// The datagrams that a socket buffer can hold at most, and so the most numbers that may wait.
pub const MAX_BUFFERED_DATAGRAMS: u64 = 8192;

// What a call is lent at most: the octets of a datagram, and numbers that wait, with one that is too many (01's refusal 14).
pub const MOST_OCTETS: usize = 2048;

pub const MOST_NUMBERS: usize = MAX_BUFFERED_DATAGRAMS as usize + 1;

// The most datagrams that can have been lost in ns nanoseconds: what the radio sent, with 1% for clock skew, and one
// socket buffer. The Rust's `plausible_lost_datagrams`.
pub fn jump_limit(ns: u64, rate: f64) -> u64
    ensures { result ≡ jump_limit ns rate }
{
    ceil_u64(seconds(ns) * (rate / PER_DATAGRAM) * 1.01).saturating_add(MAX_BUFFERED_DATAGRAMS)
}

// What a restart misses after ns nanoseconds: the samples of that time, without the datagram that came.
pub fn restart_missing(ns: u64, rate: f64) -> u64
    ensures { result ≡ restart_missing ns rate }
{
    floor_u64(round(seconds(ns) * rate) - PER_DATAGRAM)
}

// The nanoseconds that n samples take.
pub fn account_time(n: u64, rate: f64) -> u64
    ensures { result ≡ account_time n rate }
{
    nanoseconds(std::num::nearest_u64_to_f64(n) / rate)
}

// The nanoseconds that n datagrams cover.
pub fn covered_time(n: u64, rate: f64) -> u64
    ensures { result ≡ covered_time n rate }
{
    nanoseconds(std::num::nearest_u64_to_f64(n) * PER_DATAGRAM / rate)
}

// Whether n missing samples are below half the rate.
pub fn below_half(n: u64, rate: f64) -> bool
    ensures { result ≡ below_half n rate }
{
    std::num::nearest_u64_to_f64(n) < rate / 2.0
}
