// The words of a line, with spaces between them, and octets as a word spells them.
ghost use Rattle.std.specs.Prelude.{◌≡◌, ◌≤◌, IfSome, drop, length, take};
ghost use Rattle.text.specs.Run.{run, is, other};

// The first word of s, and what follows it; both are empty where none is left. Only spaces part the words of a case, so
// `text::split_word`, which goes by tabs and carriage returns too, does not serve.
pub fn split_word(s: &[u8]) -> (&[u8], &[u8])
    ensures word { result.0.now ≡ take (run (other 32) (drop (run (is 32) s.now) s.now)) (drop (run (is 32) s.now) s.now) }
    ensures rest { result.1.now ≡ drop (run (other 32) (drop (run (is 32) s.now) s.now)) (drop (run (is 32) s.now) s.now) }
{
    let left = &s[text::past(s, b' ')..];
    left.split_at(text::find(left, b' '))
}

// Puts the octets of a word such as x:00ff at the front of room: how many.
pub fn decode(w: &[u8], room: &mut [u8]) -> Option<usize>
    ensures { IfSome result (λ count. count ≤ length room.new) }
{
    let pairs = w.strip_prefix(b"x:")?;
    let count = pairs.len() / 2;
    if count > room.len() || count * 2 != pairs.len() {
        return None;
    }
    for (x, pair) in room.iter_mut().zip(pairs.chunks(2)) {
        *x = (text::digits(pair, 16)? % 256) as u8;
    }
    Some(count)
}
