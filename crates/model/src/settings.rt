// What a caller asks of a session. 01, The session.
ghost use Rattle.std.specs.Prelude.{◌≡◌};
ghost use Rattle.model.specs.Settings.{settings_number};

use tuning::board::BoardInfo;

// Automatic attenuation. What unsaid means is the definition's to say (specs/Settings).
#[derive(Clone, Copy)]
pub enum AttenuationChoice {
    Off,
    On,
    Unsaid,
}

#[derive(Clone, Copy)]
pub struct Settings {
    // the receiver count
    pub ddc_count: usize,
    // how many centres were given; `center_freq_hz` is the first
    pub center_count: usize,
    pub sample_rate_hz: f64,
    pub center_freq_hz: f64,
    pub port: u16,
    // the radio's IPv4 address, its first octet the highest
    pub radio_ip: u32,
    pub board: BoardInfo,
    pub attenuation: AttenuationChoice,
    // the soft and the hard stall time, in nanoseconds
    pub soft_after: u64,
    pub stall_after: u64,
    // accepted arrivals that a park window lasts
    pub park_window: u64,
    pub max_consecutive_malformed: u32,
}

// The first row of the settings that applies.
#[derive(Clone, Copy)]
pub enum SettingsError {
    DdcCount,
    CenterCount,
    Rate,
    Center,
    CenterTooHigh,
    // port 0
    PortZero,
    // a port that leaves no room for the radio's port map
    Port,
}

impl SettingsError {
    // Its row in the tables of 01 and 02.
    pub fn number(self) -> u64
        ensures { result ≡ settings_number self }
    {
        match self {
            SettingsError::DdcCount => 1,
            SettingsError::CenterCount => 2,
            SettingsError::Rate => 3,
            SettingsError::Center => 4,
            SettingsError::CenterTooHigh => 5,
            SettingsError::PortZero => 19,
            SettingsError::Port => 6,
        }
    }
}
