// What a user reads off a session. None of these changes it.
ghost use Rattle.std.specs.Prelude.{◌≡◌};
ghost use Rattle.model.specs.Sending as Sending;
ghost use Rattle.model.specs.State as State;
ghost use Rattle.health.specs.Counters.{loss_total};

use health::InputHealthCounters;
use model::session::Session;
use receiving::queue::left;
use sending::send::level;

// Datagrams lost, gaps and malformed datagrams, each modulo 2^64.
pub fn gap_stats(s: &Session) -> InputHealthCounters
    ensures { result ≡ s.now.common.health }
{
    s.common.health
}

// The samples of the datagrams lost, modulo 2^64.
pub fn loss_total(s: &Session) -> u64
    ensures { result ≡ loss_total s.now.common.health }
{
    s.common.health.loss_total()
}

pub fn sample_rate(s: &Session) -> f64
    ensures { result ≡ s.now.common.settings.sample_rate_hz }
{
    s.common.settings.sample_rate_hz
}

pub fn center_freq_hz(s: &Session) -> f64
    ensures { result ≡ s.now.common.settings.center_freq_hz }
{
    s.common.settings.center_freq_hz
}

// The attenuation of the moment in dB: 0 with attenuation off.
pub fn attenuation_db(s: &Session) -> u8
    ensures { result ≡ Sending.level s.now.common.attenuation }
{
    level(s.common)
}

// How many samples wait, as I, Q pairs.
pub fn waiting_samples(s: &Session) -> usize
    ensures { result ≡ State.left s.now.receiver }
{
    left(s.receiver)
}
