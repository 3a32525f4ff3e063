// A double taken apart, over its bits.
ghost use Rattle.std.specs.Prelude.{◌≡◌, min, T};
ghost use Rattle.std.specs.Float.Ieee.Scale.{finite};
ghost use Rattle.double.specs.Parts.{PartsOf, SplitOf, NearOf};

// The weights of the fields of a double's bits: the sign's, 2^63, and the exponent's, 2^52.
pub(crate) const SIGN: u64 = 0x8000_0000_0000_0000;

pub(crate) const EXPONENT: u64 = 0x10_0000_0000_0000;

// The largest u64.
pub(crate) const MOST: u64 = 0xffff_ffff_ffff_ffff;

#[derive(Clone, Copy)]
pub(crate) struct Parts {
    pub(crate) negative: bool,
    pub(crate) digits: u64,
    pub(crate) scale: u64,
}

// A finite x is digits * 2^scale / 2^1074, negative where the sign's bit is set.
pub(crate) fn apart(x: f64) -> Parts
    requires { T (finite x) }
    ensures { PartsOf x result.negative result.digits result.scale }
{
    let b = f64::to_bits(x);
    let e = b % SIGN / EXPONENT;
    let t = b % EXPONENT;
    if e == 0 {
        return Parts {
            negative: b >= SIGN,
            digits: t,
            scale: 0,
        };
    }
    Parts {
        negative: b >= SIGN,
        digits: t + EXPONENT,
        scale: e - 1,
    }
}

#[derive(Clone, Copy)]
pub(crate) struct Mixed {
    pub(crate) whole: u64,
    pub(crate) rest: u64,
    pub(crate) unit: u64,
}

// The size of a finite x as whole + rest / unit. Something below a quarter stands as a quarter.
pub(crate) fn split(x: f64) -> Mixed
    requires { T (finite x) }
    ensures { SplitOf x result.whole result.rest result.unit }
{
    let p = apart(x);
    let d = p.digits;
    let k = p.scale;
    if k < 1020 {
        return Mixed {
            whole: 0,
            rest: d.min(1),
            unit: 4,
        };
    }
    if k < 1074 {
        let u: u64 = 1 << (1074 - k);
        return Mixed {
            whole: d / u,
            rest: d % u,
            unit: u,
        };
    }
    if k < 1086 {
        return Mixed {
            whole: d << (k - 1074),
            rest: 0,
            unit: 1,
        };
    }
    Mixed {
        whole: MOST,
        rest: 0,
        unit: 1,
    }
}

// The whole numbers near any x: nothing below 0 and of a NaN, and the largest at infinity.
pub(crate) fn near(x: f64) -> Mixed
    ensures { NearOf x result.whole result.rest result.unit }
{
    if x > 0.0 {
        if x.is_finite() {
            return split(x);
        }
        return Mixed {
            whole: MOST,
            rest: 0,
            unit: 1,
        };
    }
    Mixed {
        whole: 0,
        rest: 0,
        unit: 1,
    }
}
