// Open: a session with accepted settings, or the one beside a refusal.
ghost use Rattle.std.specs.Prelude.{◌≡◌};
ghost use Rattle.model.specs.Settings.{attenuates};
ghost use Rattle.model.specs.Open as Open;
ghost use Rattle.opening.specs.Opens.{Opens};

use super::settings::validate_protocol2;
use attenuator::{Controller, Timing};
use health::InputHealthCounters;
use model::answer::Opened;
use model::receiver::{Pending, Reading, Receiver};
use model::session::{Clocks, Common, Session, Tuning};
use model::settings::{AttenuationChoice, Settings};
use sequence::SeqTracker;
use stall::StallEpisode;
use stream::SAMPLES_PER_DATAGRAM;
use tuning::alex::alex_words;
use tuning::board::board_info;
use tuning::phase::phase_word;

// What the packets carry: the rate is this many kHz, as the settings' check has it.
#[tactic(auto, unfolding(model::specs::Open::tuned))]
fn tuned(s: Settings, khz: u16) -> Tuning
    ensures { result ≡ Open.tuned khz s }
{
    let board = s.board;
    let scheme = board.scheme;
    let phase = phase_word(s.center_freq_hz);
    let alex = alex_words(scheme, s.center_freq_hz);
    Tuning {
        rate_khz: khz,
        phase_word: phase,
        alex,
    }
}

// Whether a session with these settings attenuates.
fn attenuates(s: Settings) -> bool
    ensures { result ≡ attenuates s }
{
    let choice = s.attenuation;
    match choice {
        AttenuationChoice::Off => false,
        AttenuationChoice::On => true,
        AttenuationChoice::Unsaid => false,
    }
}

#[tactic(auto, unfolding(base::specs::Pick::pick, model::specs::Open::attenuation_at))]
fn attenuation_at(on: bool, now: u64) -> Option<Controller>
    ensures { result ≡ Open.attenuation_at on now }
{
    if on {
        let timing = Timing::default();
        let controller = Controller::new(0, now, timing);
        return Some(controller);
    }
    None
}

#[tactic(auto, unfolding(model::specs::Open::new_common))]
fn new_common(s: Settings, khz: u16, now: u64) -> Common
    ensures { result ≡ Open.new_common khz s now }
{
    let tuning = tuned(s, khz);
    let attenuation = attenuation_at(attenuates(s), now);
    let clocks = Clocks {
        high_priority: now,
        rx_tx_specific: now,
        general: now,
    };
    let health = InputHealthCounters::new();
    Common {
        settings: s,
        tuning,
        seq: [0; 4],
        clocks,
        attenuation,
        health,
        consecutive_malformed: 0,
        last_reading: now,
        closed: false,
    }
}

#[tactic(auto, unfolding(model::specs::Open::new_receiver))]
fn new_receiver(now: u64) -> Receiver
    ensures { result ≡ Open.new_receiver now }
{
    let tracker = SeqTracker::new();
    let stall = StallEpisode::new();
    let reading = Reading {
        wait_entered: None,
        entered: None,
    };
    let pending = Pending {
        missing: None,
        discontinuity: None,
    };
    Receiver {
        tracker,
        queue_pos: SAMPLES_PER_DATAGRAM as usize,
        reading,
        parked: None,
        pending,
        last_valid_iq: now,
        last_accepted_iq: now,
        read_returned: now,
        stall,
    }
}

#[tactic(auto, unfolding(model::specs::Open::new_session))]
fn new_session(s: Settings, khz: u16, now: u64) -> Session
    ensures { result ≡ Open.new_session khz s now }
{
    let common = new_common(s, khz, now);
    let receiver = new_receiver(now);
    Session { common, receiver }
}

fn no_settings() -> Settings
    ensures { result ≡ Open.no_settings }
{
    let board = board_info(None);
    Settings {
        ddc_count: 0,
        center_count: 0,
        sample_rate_hz: 0.0,
        center_freq_hz: 0.0,
        port: 0,
        radio_ip: 0,
        board,
        attenuation: AttenuationChoice::Off,
        soft_after: 0,
        stall_after: 0,
        park_window: 0,
        max_consecutive_malformed: 0,
    }
}

// The session beside a refusal, whatever was refused.
#[tactic(auto, unfolding(model::specs::Open::unopened, model::specs::Open::new_session))]
fn unopened() -> Session
    ensures { result ≡ Open.unopened }
{
    let s = no_settings();
    let mut closed = new_session(s, 0, 0);
    closed.common.closed = true;
    closed
}

// Opens a session: `s` is what the caller asks for, `now` the opening reading, which every clock and the last accepted reading then
// hold. Lend 476 f32 beside the session to every call that takes samples; what they hold at first makes no difference. Ok: go
// on with the session; the rate in kHz is what its packets say. An error is a row of the settings (`refusal` gives the number):
// ask again with other settings. The session beside a refusal is closed, and each call of it is refused by 10.
pub fn open(s: Settings, now: u64) -> Opened
    ensures { Opens result s now }
{
    let answer = validate_protocol2(s);
    let Ok(khz) = answer else {
        let session = unopened();
        return Opened { answer, session };
    };
    let session = new_session(s, khz, now);
    Opened { answer, session }
}
