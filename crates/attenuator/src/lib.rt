// Automatic attenuation of ADC0: 6 dB more, 30 at most, where overload goes on; 6 dB less after a quiet time. It reads no clock:
// readings come in as arguments. 01, The session, Attenuator.
#![tactic(auto)]

ghost use Rattle.std.specs.Prelude.{◌≡◌, min};
ghost use Rattle.attenuator.specs.Controller.{usual, up, down, opened, run_start_of, heard, trips, observed, releases, quieted, ticked};

// Overload reports this close together, in nanoseconds, are one run.
pub const OVERLOAD_HOLD: u64 = 500_000_000;

// A run this long raises the attenuation by one step.
pub const TRIP_AFTER: u64 = 2_000_000_000;

// So long without overload lowers it by one step.
pub const RELEASE_AFTER: u64 = 600_000_000_000;

pub const STEP_DB: u8 = 6;

pub const MAX_DB: u8 = 30;

// The controller's three times, in nanoseconds.
#[derive(Clone, Copy)]
pub struct Timing {
    pub hold: u64,
    pub trip_after: u64,
    pub release_after: u64,
}

#[derive(Clone, Copy)]
pub enum AttenuationCause {
    Overload,
    Quiet,
}

// The level before it and after it, and why it was taken.
#[derive(Clone, Copy)]
pub struct AttenuationStep {
    pub from_db: u8,
    pub to_db: u8,
    pub cause: AttenuationCause,
}

#[derive(Clone, Copy)]
pub struct Controller {
    pub db: u8,
    pub timing: Timing,
    // the start of the run of overload, moved to each raise
    pub run_start: Option<u64>,
    // the last overload report
    pub last_overload: Option<u64>,
    // the latest of the last overload report, the last change and the opening
    pub quiet_since: u64,
}

impl Timing {
    // 01's times.
    pub fn default() -> Self
        ensures { result ≡ usual }
    {
        Self {
            hold: OVERLOAD_HOLD,
            trip_after: TRIP_AFTER,
            release_after: RELEASE_AFTER,
        }
    }
}

// One step up, to the most.
fn up(db: u8) -> u8
    ensures { result ≡ up db }
{
    db.saturating_add(STEP_DB).min(MAX_DB)
}

fn down(db: u8) -> u8
    ensures { result ≡ down db }
{
    db.saturating_sub(STEP_DB)
}

impl Controller {
    // A controller whose quiet time starts now; a level above the most is the most.
    #[tactic(auto, unfolding(crate::specs::Controller::opened))]
    pub fn new(db: u8, now: u64, timing: Timing) -> Self
        ensures { result ≡ opened db now timing }
    {
        Self {
            db: db.min(MAX_DB),
            timing,
            run_start: None,
            last_overload: None,
            quiet_since: now,
        }
    }

    // The start of the run that an overload now belongs to: the run goes on until the hold has lapsed.
    #[tactic(auto, unfolding(base::specs::Pick::pick, crate::specs::Controller::run_start_of))]
    fn run_at(self, now: u64) -> u64
        ensures { result ≡ run_start_of self now }
    {
        let Some(last) = self.last_overload else {
            return now;
        };
        if now.saturating_sub(last) > self.timing.hold {
            return now;
        }
        self.run_start.unwrap_or(now)
    }

    // An overload now, in a run since `start`: the quiet time starts anew.
    fn hear(&mut self, db: u8, start: u64, now: u64)
        ensures { self.new ≡ heard self.old db start now }
    {
        self.db = db;
        self.run_start = Some(start);
        self.last_overload = Some(now);
        self.quiet_since = now;
    }

    // Whether an overload now, in a run since `start`, raises the attenuation.
    #[tactic(auto, unfolding(crate::specs::Controller::trips))]
    fn trips(self, start: u64, now: u64) -> bool
        ensures { result ≡ trips self start now }
    {
        if self.db >= MAX_DB {
            return false;
        }
        now.saturating_sub(start) >= self.timing.trip_after
    }

    // A status packet's overload bit, read now. A clear one changes nothing: the run ends when the hold lapses.
    #[tactic(auto, unfolding(base::specs::Pick::pick, crate::specs::Controller::observed, crate::specs::Controller::overload))]
    pub fn observe(&mut self, overloaded: bool, now: u64) -> Option<AttenuationStep>
        ensures { record { step = result; controller = self.new } ≡ observed self.old overloaded now }
    {
        if !overloaded {
            return None;
        }
        let start = self.run_at(now);
        let from_db = self.db;
        if !self.trips(start, now) {
            self.hear(from_db, start, now);
            return None;
        }
        let to_db = up(from_db);
        self.hear(to_db, now, now);
        Some(AttenuationStep {
            from_db,
            to_db,
            cause: AttenuationCause::Overload,
        })
    }

    // Whether the quiet time is over, and there is a level to lower.
    #[tactic(auto, unfolding(crate::specs::Controller::releases))]
    fn releases(self, now: u64) -> bool
        ensures { result ≡ releases self now }
    {
        if self.db == 0 {
            return false;
        }
        now.saturating_sub(self.quiet_since) >= self.timing.release_after
    }

    // To a level at which a quiet time starts then.
    fn lower(&mut self, db: u8, then: u64)
        ensures { self.new ≡ quieted self.old db then }
    {
        self.db = db;
        self.quiet_since = then;
    }

    // Lowers the attenuation by one step where the quiet time is over.
    #[tactic(auto, unfolding(base::specs::Pick::pick, crate::specs::Controller::ticked))]
    pub fn tick(&mut self, now: u64) -> Option<AttenuationStep>
        ensures { record { step = result; controller = self.new } ≡ ticked self.old now }
    {
        if !self.releases(now) {
            return None;
        }
        let from_db = self.db;
        let to_db = down(from_db);
        self.lower(to_db, now);
        Some(AttenuationStep {
            from_db,
            to_db,
            cause: AttenuationCause::Quiet,
        })
    }
}
