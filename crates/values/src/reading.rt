// A number, a reading and a double, as a word spells each.
ghost use Rattle.std.specs.Prelude.{◌≡◌, true, ◌≤◌, ◌<◌, length};
ghost use Rattle.values.specs.Value as Value;

// What is spelt, where it is at most `most`.
#[tactic(auto, unfolding(base::specs::Pick::pick))]
pub fn up_to(x: Option<u64>, most: u64) -> Option<u64>
    ensures { result ≡ Value.up_to most x }
{
    x.filter(|n| *n <= most)
}

// Decimal digits, at most `most`.
#[tactic(auto, unfolding(crate::specs::Value::number))]
pub fn number(w: &[u8], most: u64) -> Option<u64>
    ensures { result ≡ Value.number most w.now }
{
    up_to(text::digits(w, 10), most)
}

fn ends(w: &[u8], unit: &[u8]) -> bool
    ensures { (result ≡ Value.ends w.now unit.now) ×
        (result ≡ true → length unit.now ≤ length w.now) }
{
    w.ends_with(unit)
}

// The word without its last n, as so many times k.
#[tactic(auto, unfolding(base::specs::Pick::pick, crate::specs::Value::timed))]
fn timed(w: &[u8], n: usize, k: u64) -> Option<u64>
    requires { (n ≤ length w.now) × (0 < k) }
    ensures { result ≡ Value.timed n k w.now }
{
    let count = w.len() - n;
    text::digits(&w[..count], 10)?.checked_mul(k)
}

// Nanoseconds, or a number with its unit straight after it.
#[tactic(auto, unfolding(base::specs::Pick::pick, crate::specs::Value::reading))]
pub fn reading(w: &[u8]) -> Option<u64>
    ensures { result ≡ Value.reading w.now }
{
    if ends(w, b"us") {
        return timed(w, 2, 1000);
    }
    if ends(w, b"ms") {
        return timed(w, 2, 1000000);
    }
    if ends(w, b"s") {
        return timed(w, 1, 1000000000);
    }
    text::digits(w, 10)
}

// The double of a number up to 2^53, as its bits.
fn exact_bits(w: &[u8]) -> Option<u64>
    ensures { result ≡ Value.exact w.now }
{
    let n = number(w, 9007199254740992)?;
    Some(f64::to_bits(n as f64))
}

// The bits of a double: a number up to 2^53, or `bits:` and 16 hexadecimal digits.
#[tactic(auto, unfolding(base::specs::Pick::pick, crate::specs::Value::double, text::specs::Name::same))]
pub fn double(w: &[u8]) -> Option<u64>
    ensures { result ≡ Value.double w.now }
{
    let Some(bits) = w.strip_prefix(b"bits:") else {
        return exact_bits(w);
    };
    if bits.len() != 16 {
        return None;
    }
    text::digits(bits, 16)
}
