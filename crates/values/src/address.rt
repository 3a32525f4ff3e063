// An IPv4 address, and the sender of a datagram.
ghost use Rattle.std.specs.Prelude.{◌≡◌};
ghost use Rattle.values.specs.Value as Value;

use super::reading::number;

// A.B.C.D as one number, A the highest.
pub fn ipv4(w: &[u8]) -> Option<u64>
    ensures { result ≡ Value.ipv4 w.now }
{
    let mut n: u64 = 0;
    let mut left: u64 = 4;
    for part in w.split(|x| *x == b'.') {
        if left == 0 {
            return None;
        }
        n = n * 256 + number(part, 255)?;
        left -= 1;
    }
    if left == 0 {
        return Some(n);
    }
    None
}

fn host(w: &[u8]) -> Option<u64>
    ensures { result ≡ Value.host w.now }
{
    if w == b"v6".as_slice() {
        return Some(4294967296);
    }
    ipv4(w)
}

// An address and a port, as address × 2^16 + port; an IPv6 address is 2^32.
pub fn sender(w: &[u8]) -> Option<u64>
    ensures { result ≡ Value.sender w.now }
{
    let colon = text::find(w, b':');
    if colon == w.len() {
        return None;
    }
    let a = host(&w[..colon])?;
    let port = colon + 1;
    let p = number(&w[port..], 65535)?;
    Some(a * 65536 + p)
}
