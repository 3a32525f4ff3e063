// A session: what its receivers have in common, and its one receiver.
use super::receiver::Receiver;
use super::settings::Settings;
use attenuator::Controller;
use health::InputHealthCounters;
use tuning::alex::AlexWords;

// What the packets carry of the settings, worked out once.
#[derive(Clone, Copy)]
pub struct Tuning {
    pub rate_khz: u16,
    pub phase_word: u32,
    pub alex: AlexWords,
}

// When each keepalive was last sent; receive and transmit share a clock.
#[derive(Clone, Copy)]
pub struct Clocks {
    pub high_priority: u64,
    pub rx_tx_specific: u64,
    pub general: u64,
}

#[derive(Clone, Copy)]
pub struct Common {
    pub settings: Settings,
    pub tuning: Tuning,
    // the next count of each command stream, by its offset
    pub seq: [u32; 4],
    pub clocks: Clocks,
    // the controller, with automatic attenuation on
    pub attenuation: Option<Controller>,
    pub health: InputHealthCounters,
    pub consecutive_malformed: u32,
    // the last accepted reading
    pub last_reading: u64,
    pub closed: bool,
}

#[derive(Clone, Copy)]
pub struct Session {
    pub common: Common,
    pub receiver: Receiver,
}
