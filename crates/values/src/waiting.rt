// The list of waiting numbers, into a lent buffer.
ghost use Rattle.std.specs.Prelude.{◌≡◌, ◌+◌, ◌≤◌, length};
ghost use Rattle.octets.specs.Written.{written};
ghost use Rattle.values.specs.Waiting.{from, span_of, waiting_count, waiting_seen};

use super::reading::number;
use stream::MOST_NUMBERS;

// The first of numbers that follow each other, and how many.
fn span_of(p: &[u8]) -> Option<(u64, u64)>
    ensures { result ≡ span_of p.now }
{
    let dash = text::find(p, b'-');
    if dash == p.len() {
        let n = number(p, 4294967295)?;
        return Some((n, 1));
    }
    let a = number(&p[..dash], 4294967295)?;
    let second = dash + 1;
    let b = number(&p[second..], 4294967295)?;
    if a <= b {
        return Some((a, b - a + 1));
    }
    None
}

// Puts k numbers from `first` on at a place.
fn fill(numbers: &mut [u32], at: usize, first: u64, k: u64)
    requires { (at + k ≤ length numbers.old) × (first + k ≤ 4294967296) }
    ensures { numbers.new ≡ written numbers.old at (from first k) }
{
    for i in 0..k {
        numbers[at + i as usize] = (first + i) as u32;
    }
}

// With commas between: how many. A word that can't be read leaves what was written before its reading stopped.
pub fn waiting(w: &[u8], numbers: &mut [u32]) -> Option<u64>
    requires { 8193 ≤ length numbers.old }
    ensures { (result ≡ waiting_count w.now) ×
        (numbers.new ≡ written numbers.old 0 (waiting_seen w.now)) }
{
    let mut n: u64 = 0;
    for part in w.split(|x| *x == b',') {
        let (first, k) = span_of(part)?;
        if n + k > MOST_NUMBERS as u64 {
            return None;
        }
        fill(&mut *numbers, n as usize, first, k);
        n += k;
    }
    Some(n)
}
