// The settings: 01's rows 1 to 6 and request 2026-01's row 19, in order.
ghost use Rattle.std.specs.Prelude.{◌≡◌};
ghost use Rattle.tuning.specs.Centre.{whole_centre, below_nyquist};
ghost use Rattle.model.specs.Settings.{settings_answer, settings_told};
ghost use Rattle.opening.specs.Refusal.{number_of};

use double::whole::is_whole;
use model::settings::{Settings, SettingsError};
use tuning::rate::rate_khz;

// Half the ADC clock: the phase word's range.
const MAX_CENTRE_FREQ_HZ: f64 = 61_440_000.0;

// The highest port that leaves room for the radio's port map: 65,535 less DDC0's offset.
const MAX_PORT: u16 = 65_524;

// Row 4: finite, above 0 and whole.
fn whole_centre(f: f64) -> bool
    ensures { result ≡ whole_centre f }
{
    if !f.is_finite() {
        return false;
    }
    if f > 0.0 {
        return is_whole(f);
    }
    false
}

// Row 5.
fn below_nyquist(f: f64) -> bool
    ensures { result ≡ below_nyquist f }
{
    f < MAX_CENTRE_FREQ_HZ
}

// The rate in kHz, or the first row that applies.
pub fn validate_protocol2(s: Settings) -> Result<u16, SettingsError>
    ensures { settings_answer result ≡ settings_told s }
{
    if s.ddc_count != 1 {
        return Err(SettingsError::DdcCount);
    }
    if s.center_count != 1 {
        return Err(SettingsError::CenterCount);
    }
    let khz = rate_khz(s.sample_rate_hz).ok_or(SettingsError::Rate)?;
    if !whole_centre(s.center_freq_hz) {
        return Err(SettingsError::Center);
    }
    if !below_nyquist(s.center_freq_hz) {
        return Err(SettingsError::CenterTooHigh);
    }
    if s.port == 0 {
        return Err(SettingsError::PortZero);
    }
    if s.port > MAX_PORT {
        return Err(SettingsError::Port);
    }
    Ok(khz)
}

// A refusal's number; 0 where the settings are accepted.
pub fn refusal(a: Result<u16, SettingsError>) -> u64
    ensures { result ≡ number_of (settings_answer a) }
{
    match a {
        Ok(_) => 0,
        Err(e) => e.number(),
    }
}
