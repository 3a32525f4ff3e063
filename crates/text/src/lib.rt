// Words and numbers in a slice of text. Every function is total: a caller goes on with the part of the slice that is left.
#![tactic(auto)]

ghost use Rattle.std.specs.Prelude.{◌≡◌, ◌≤◌, true, [], drop, length, MatchOption};
ghost use Rattle.text.specs.Run.{run, is, other};
ghost use Rattle.text.specs.Number.{digit_of, digits_of, is_hex, number_of};
ghost use Rattle.text.specs.Split.{blank, filled, words, FirstWord};
ghost use Rattle.text.specs.Name.{found};

// How many octets at the front of s equal b.
pub fn past(s: &[u8], b: u8) -> usize
    ensures { (result ≡ run (is b) s.now) × (result ≤ length s.now) }
{
    s.iter().position(|x| *x != b).unwrap_or(s.len())
}

// Where b first stands in s, or the length of s.
pub fn find(s: &[u8], b: u8) -> usize
    ensures { (result ≡ run (other b) s.now) × (result ≤ length s.now) }
{
    s.iter().position(|x| *x == b).unwrap_or(s.len())
}

// A space, a tab or a carriage return.
fn is_blank(x: u8) -> bool
    ensures { result ≡ blank x }
{
    x == b' ' || x == b'\t' || x == b'\r'
}

fn past_blanks(s: &[u8]) -> usize
    ensures { (result ≡ run blank s.now) × (result ≤ length s.now) }
{
    s.iter().position(|x| !is_blank(*x)).unwrap_or(s.len())
}

fn find_blank(s: &[u8]) -> usize
    ensures { (result ≡ run filled s.now) × (result ≤ length s.now) }
{
    s.iter().position(|x| is_blank(*x)).unwrap_or(s.len())
}

// The first word of s, and what follows it; none where no word is left.
pub fn split_word(s: &[u8]) -> Option<(&[u8], &[u8])>
    ensures { MatchOption result (words s.now ≡ []) (λ p. FirstWord s.now p.0.now p.1.now) }
{
    let left = &s[past_blanks(s)..];
    if left.is_empty() {
        return None;
    }
    Some(left.split_at(find_blank(left)))
}

// The first word of s from the place `at` on, and what follows it; none where no word is left, and past the end of s.
pub fn word_at(s: &[u8], at: usize) -> Option<(&[u8], &[u8])>
    ensures { MatchOption result (words (drop at s.now) ≡ []) (λ p. FirstWord (drop at s.now) p.0.now p.1.now) }
{
    split_word(s.get(at..).unwrap_or(&[]))
}

// The place of w among names with blanks between them. It goes from word to word: `split` gives an empty part
// for each further blank, and to leave those out of the count is no plainer.
pub fn place_of(w: &[u8], names: &[u8]) -> Option<usize>
    ensures { result ≡ found w.now (words names.now) }
{
    let mut left = names;
    let mut k = 0;
    while let Some((name, rest)) = split_word(left) {
        if name == w {
            return Some(k);
        }
        left = rest;
        k += 1;
    }
    None
}

// The value of a digit, 0 to 9, a to f and A to F, and 16 of what is none. That is a number too, and no `None`, since `digits` goes by it
// in every base, those above 16 too (`digits_of`, specs/Number).
pub fn digit(x: u8) -> u64
    ensures { (result ≡ digit_of x) × (result ≤ 16) }
{
    match x {
        b'0'..=b'9' => x as u64 - 48,
        b'A'..=b'F' => x as u64 - 55,
        b'a'..=b'f' => x as u64 - 87,
        _ => 16,
    }
}

// The number that s spells in a base: one digit or more, each below the base, and no more than a u64 holds.
pub fn digits(s: &[u8], base: u64) -> Option<u64>
    ensures { result ≡ digits_of base s.now }
{
    if s.is_empty() {
        return None;
    }
    let mut n: u64 = 0;
    for x in s {
        let d = digit(*x);
        if d >= base {
            return None;
        }
        n = n.checked_mul(base)?.checked_add(d)?;
    }
    Some(n)
}

fn is_hex(s: &[u8]) -> bool
    ensures { (result ≡ is_hex s.now) × (result ≡ true → 2 ≤ length s.now) }
{
    s.len() >= 2 && s[0] == b'0' && s[1] == b'x'
}

// A number in decimal, or in hexadecimal after 0x.
pub fn number(s: &[u8]) -> Option<u64>
    ensures { result ≡ number_of s.now }
{
    if is_hex(s) {
        return digits(&s[2..], 16);
    }
    digits(s, 10)
}
