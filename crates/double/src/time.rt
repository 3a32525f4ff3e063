// Readings, nanoseconds and a double's seconds, as Rust's `Instant` and `Duration` have them.
ghost use Rattle.std.specs.Prelude.{◌≡◌, ◌%◌, ◌^◌, ◌<◌, ◌≤◌};
ghost use Rattle.double.specs.Seconds.{seconds_of, nanos_of};
ghost use Rattle.double.specs.Parts.{to_even, nanos_by};

use super::parts::{MOST, apart};

// Rust's `as_secs_f64`: whole seconds plus nanoseconds / 1e9.
pub fn seconds(ns: u64) -> f64
    ensures { result ≡ seconds_of ns }
{
    ((ns / 1000000000) as f64) + ((ns % 1000000000) as f64) / 1000000000.0
}

// q, or one more: q is the whole part, and (t + s / 2^26) / u is left.
fn to_even(q: u64, t: u64, u: u64, s: u64) -> u64
    requires { (t < 2 ^ 60) × (s < 2 ^ 26) × (u % 2 ≡ 0) }
    ensures { result ≡ to_even q t u s }
{
    if t * 2 < u {
        return q;
    }
    if t * 2 > u {
        return q.saturating_add(1);
    }
    if s > 0 {
        return q.saturating_add(1);
    }
    if q % 2 == 0 {
        return q;
    }
    q.saturating_add(1)
}

// 2^26: d * 1e9 has 83 bits, and is kept as b * LIMB + r.
const LIMB: u64 = 67108864;

// 2^38 = 2^64 / LIMB: where b / u reaches it, the number is past MOST.
const PAST: u64 = 274877906944;

// The nanoseconds of d * 2^k / 2^1074 seconds.
fn nanos_of(d: u64, k: u64) -> u64
    requires { (d < 2 ^ 53) × (1074 ≤ k → 2 ^ 52 ≤ d) }
    ensures { result ≡ nanos_by d k }
{
    if k < 990 {
        return 0;
    }
    if k >= 1074 {
        return MOST;
    }
    let a = d % LIMB * 1000000000;
    let b = d / LIMB * 1000000000 + a / LIMB;
    let r = a % LIMB;
    if k < 1048 {
        let u: u64 = 1 << (1048 - k);
        return to_even(b / u, b % u, u, r);
    }
    let u: u64 = 1 << (1074 - k);
    if b / PAST >= u {
        return MOST;
    }
    to_even(b * (LIMB / u) + r / u, r % u, u, 0)
}

// Rust's `Duration::from_secs_f64` in nanoseconds, ties to even, from the double's exact value. Where that panics, 0 for a
// NaN and what is negative, and the largest u64 for what is past it.
pub fn nanoseconds(x: f64) -> u64
    ensures { result ≡ nanos_of x }
{
    if x > 0.0 {
        if x.is_finite() {
            let p = apart(x);
            return nanos_of(p.digits, p.scale);
        }
        return MOST;
    }
    0
}
