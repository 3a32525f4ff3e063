// Whether a double is whole, and the whole numbers near it, as Rust's `as`, `floor`, `ceil` and `round` have them. std has all of
// them, by the machine's own conversion. 01 has these worked out over the bits of a double, and so they stay.
ghost use Rattle.std.specs.Prelude.{◌≡◌, false, pos};
ghost use Rattle.std.specs.Float.{fin};
ghost use Rattle.std.specs.Float.Ieee.{lt, to_unsigned};
ghost use Rattle.double.specs.Whole.{floor_of, ceil_of, round_of, rounded, is_whole};

use super::parts::{near, split};

// Rust's `x.fract() == 0.0`.
pub fn is_whole(x: f64) -> bool
    ensures { result ≡ is_whole x }
{
    if x.is_finite() {
        return split(x).rest == 0;
    }
    false
}

// Rust's `x.floor() as u64`, which is its `x as u64` too.
pub fn floor_u64(x: f64) -> u64
    ensures { result ≡ floor_of x }
{
    near(x).whole
}

// Rust's `x as u32`, cut from the floor: 01 names this form for the phase word.
pub fn cast_u32(x: f64) -> u32
    ensures { result ≡ to_unsigned 32 x }
{
    let n = floor_u64(x);
    if n < 4294967296 { n as u32 } else { 4294967295 }
}

// Rust's `x.ceil() as u64`.
pub fn ceil_u64(x: f64) -> u64
    ensures { result ≡ ceil_of x }
{
    let s = near(x);
    if s.rest == 0 {
        return s.whole;
    }
    s.whole.saturating_add(1)
}

// Rust's `x.round() as u64`: half away from zero.
pub fn round_u64(x: f64) -> u64
    ensures { result ≡ round_of x }
{
    let s = near(x);
    if s.rest * 2 < s.unit {
        return s.whole;
    }
    s.whole.saturating_add(1)
}

// From 2^52 on every double is whole.
fn round_up_from_zero(x: f64) -> f64
    requires { lt x (fin false 0 (pos 0)) ≡ false }
    ensures { result ≡ rounded x }
{
    if x > 0.0 {
        if x < 4503599627370496.0 {
            return std::num::nearest_u64_to_f64(round_u64(x));
        }
    }
    x
}

// Rust's `x.round()`.
pub fn round(x: f64) -> f64
    ensures { result ≡ rounded x }
{
    if x < 0.0 {
        return -round_up_from_zero(-x);
    }
    round_up_from_zero(x)
}
