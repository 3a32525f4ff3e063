// Numbers, big-endian, and runs of zeros in a lent buffer. A place and its width have been tested by the
// caller against the buffer's length; a writer leaves every other place as it was.
#![tactic(auto)]

ghost use Rattle.std.specs.Prelude.{◌≡◌, true, ◌+◌, ◌≤◌, ◌<◌, length};
ghost use Rattle.octets.specs.Written.{written};
ghost use Rattle.octets.specs.Number.{be, be_at};
ghost use Rattle.octets.specs.Packet.{zeros, Zero};

pub fn get_u16(p: &[u8], at: usize) -> u16
    requires { at + 2 ≤ length p.now }
    ensures { result ≡ be_at 2 p.now at }
{
    u16::from_be_bytes([p[at], p[at + 1]])
}

pub fn get_u32(p: &[u8], at: usize) -> u32
    requires { at + 4 ≤ length p.now }
    ensures { result ≡ be_at 4 p.now at }
{
    u32::from_be_bytes([p[at], p[at + 1], p[at + 2], p[at + 3]])
}

#[tactic(auto, unfolding(crate::specs::Written::written))]
pub fn put_u16(p: &mut [u8], at: usize, v: u16)
    requires { at + 2 ≤ length p.old }
    ensures { p.new ≡ written p.old at (be 2 v) }
{
    p[at..at + 2].copy_from_slice(&v.to_be_bytes());
}

// The lower 24 bits of v.
#[tactic(auto, unfolding(crate::specs::Written::written))]
pub fn put_u24(p: &mut [u8], at: usize, v: u32)
    requires { at + 3 ≤ length p.old }
    ensures { p.new ≡ written p.old at (be 3 v) }
{
    let octets = v.to_be_bytes();
    p[at..at + 3].copy_from_slice(&octets[1..]);
}

#[tactic(auto, unfolding(crate::specs::Written::written))]
pub fn put_u32(p: &mut [u8], at: usize, v: u32)
    requires { at + 4 ≤ length p.old }
    ensures { p.new ≡ written p.old at (be 4 v) }
{
    p[at..at + 4].copy_from_slice(&v.to_be_bytes());
}

// The first n octets become 0.
#[tactic(auto, unfolding(crate::specs::Packet::zeros, crate::specs::Written::written))]
pub fn clear(p: &mut [u8], n: usize)
    requires { n ≤ length p.old }
    ensures { p.new ≡ written p.old 0 (zeros n) }
{
    p[..n].fill(0);
}

// Whether the octets from a place up to another are all 0.
pub fn is_zero(p: &[u8], from: usize, to: usize) -> bool
    requires { to ≤ length p.now }
    ensures { (result ≡ true → Zero p.now from to) × (Zero p.now from to → result ≡ true) }
{
    for i in from..to {
        if p[i] != 0 {
            return false;
        }
    }
    true
}
