// Adler-32 (RFC 1950). Of at most 8192 octets neither sum passes a u64, so that both are reduced once, at the end.
ghost use Rattle.std.specs.Prelude.{◌+◌, ◌<◌, ◌≤◌, length};

use console::output::Output;

const MOST: usize = 8192;

// Of so many f32, four octets each, neither.
const MOST_PLACES: usize = 1024;

#[derive(Clone, Copy)]
struct Sums {
    a: u64,
    b: u64,
}

impl Sums {
    // An octet more.
    fn octet(&mut self, x: u8)
        requires { (self.old.a < 4000000) × (self.old.b < 70000000000) }
        ensures { (self.new.a ≤ self.old.a + 255) × (self.new.b ≤ self.old.b + self.new.a) }
    {
        self.a += u64::from(x);
        self.b += self.a;
    }

    fn value(self) -> u32 {
        (self.b % 65521 * 65536 + self.a % 65521) as u32
    }
}

fn of_octets(p: &[u8]) -> u32
    requires { length p.now ≤ 8192 }
{
    let mut s = Sums { a: 1, b: 0 };
    for x in p {
        s.octet(*x);
    }
    s.value()
}

// Of the first n octets, which are there.
pub(crate) fn octets(p: &[u8], n: usize) -> u32 {
    if n <= p.len().min(MOST) {
        return of_octets(&p[..n]);
    }
    0
}

// A NaN, which no sample is, has one pattern.
fn bits_of(x: f32) -> u32 {
    if x.is_nan() {
        return 0x7fc0_0000;
    }
    f32::to_bits(x)
}

fn of_samples(p: &[f32]) -> u32
    requires { length p.now ≤ 1024 }
{
    let mut s = Sums { a: 1, b: 0 };
    for x in p {
        for octet in bits_of(*x).to_be_bytes() {
            s.octet(octet);
        }
    }
    s.value()
}

// Of the first n pairs, which are there, each f32 as four octets, the highest first.
pub(crate) fn samples(p: &[f32], n: usize) -> u32 {
    if n <= p.len().min(MOST_PLACES) / 2 {
        return of_samples(&p[..2 * n]);
    }
    0
}

pub(crate) fn tell(out: &mut Output, d: u32) {
    out.named_hex(b" digest ", u64::from(d), 8)
}
