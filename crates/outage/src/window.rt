// The park window: a pause opens or refills it, an accepted arrival uses it.
ghost use Rattle.std.specs.Prelude.{◌≡◌};
ghost use Rattle.model.specs.Rules as Rules;

use model::receiver::Parked;
use stream::SAMPLES_PER_DATAGRAM;

// A pause this long between reads, in nanoseconds, parks the socket.
const PARKED_AFTER: u64 = 100_000_000;

// Opened at the last Take, or refilled where it is open.
fn refilled(window: Option<Parked>, size: u64, taken: u64) -> Option<Parked>
    ensures { result ≡ Rules.refilled size taken window }
{
    match window {
        None => Some(Parked {
            from: taken,
            accounted: 0,
            left: size,
        }),
        Some(parked) => Some(Parked {
            left: size,
            ..parked
        }),
    }
}

pub fn begun(window: Option<Parked>, size: u64, taken: u64, now: u64) -> Option<Parked>
    ensures { result ≡ Rules.begun size taken window now }
{
    if now.saturating_sub(taken) >= PARKED_AFTER {
        return refilled(window, size, taken);
    }
    window
}

// After an accepted arrival that was told so much missing.
pub fn used(window: Option<Parked>, missing: u64) -> Option<Parked>
    ensures { result ≡ Rules.used window missing }
{
    let parked = window?;
    if parked.left <= 1 {
        return None;
    }
    let heard = parked.accounted.saturating_add(SAMPLES_PER_DATAGRAM);
    Some(Parked {
        from: parked.from,
        accounted: heard.saturating_add(missing),
        left: parked.left - 1,
    })
}
