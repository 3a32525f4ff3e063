// The rates that a receive packet can ask for, 48 kHz doubled a few times: of a rate in Hz, and of the packet's own field.
ghost use Rattle.std.specs.Prelude.{◌≡◌};
ghost use Rattle.tuning.specs.Rate.{rate_answer, rate_told, is_rate_khz};

// In Hz.
const LOWEST_RATE: u32 = 48_000;

// How often it may be doubled.
const MOST_DOUBLINGS: u32 = 3;

// The kHz that a receive packet says for a rate in Hz. `None`, 01's 3, where the rate is not accepted.
pub fn rate_khz(rate: f64) -> Option<u16>
    ensures { rate_answer result ≡ rate_told rate }
{
    let mut hz = LOWEST_RATE;
    for _ in 0..MOST_DOUBLINGS + 1 {
        if (hz as f64) == rate {
            return Some((hz / 1000) as u16);
        }
        hz *= 2;
    }
    None
}

// Whether a receive packet may ask for so many kHz: the rate in Hz is put to the same test.
pub fn is_rate_khz(khz: u16) -> bool
    ensures { result ≡ is_rate_khz khz }
{
    match rate_khz((khz as f64) * 1000.0) {
        Some(_) => true,
        None => false,
    }
}
