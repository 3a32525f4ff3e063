// Octets in hexadecimal, into a lent buffer.
ghost use Rattle.std.specs.Prelude.{◌≡◌, ◌*◌, ◌≤◌, length};
ghost use Rattle.octets.specs.Written.{written};
ghost use Rattle.values.specs.Octets.{hexadecimal, pairs_of, octets_seen, octet_count};

// Puts the octets that w spells at the front of room, up to the first that is no pair of digits; false where there is one.
fn decode(w: &[u8], count: usize, room: &mut [u8]) -> bool
    requires { (count * 2 ≡ length w.now) × (count ≤ length room.old) }
    ensures { (result ≡ hexadecimal w.now) ×
        (room.new ≡ written room.old 0 (pairs_of w.now)) }
{
    for i in 0..count {
        let a = text::digit(w[2 * i]);
        if a >= 16 {
            return false;
        }
        let b = text::digit(w[2 * i + 1]);
        if b >= 16 {
            return false;
        }
        room[i] = (16 * a + b) as u8;
    }
    true
}

// The octets of a word, or `-` for none: how many. A word that can't be read leaves what was written before its reading stopped.
pub fn octets(w: &[u8], room: &mut [u8]) -> Option<u64>
    requires { 2048 ≤ length room.old }
    ensures { (result ≡ octet_count w.now) ×
        (room.new ≡ written room.old 0 (octets_seen w.now)) }
{
    if w == b"-".as_slice() {
        return Some(0);
    }
    if w.len() > 4096 {
        return None;
    }
    let count = w.len() / 2;
    if count * 2 != w.len() {
        return None;
    }
    if decode(w, count, room) {
        return Some(count as u64);
    }
    None
}
