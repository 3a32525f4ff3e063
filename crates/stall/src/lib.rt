// One outage of a stream that was delivering: told once after the soft deadline, and again only after a further delivery.
// 01, The session, Pass.
#![tactic(auto)]

ghost use Rattle.std.specs.Prelude.{◌≡◌};
ghost use Rattle.stall.specs.Episode.{unarmed, delivered, is_due, reported, taken};

#[derive(Clone, Copy)]
pub struct StallEpisode {
    // samples came since the last report
    pub delivering: bool,
    // a report was made and has not been taken
    pub pending: bool,
}

impl StallEpisode {
    pub fn new() -> Self
        ensures { result ≡ unarmed }
    {
        Self {
            delivering: false,
            pending: false,
        }
    }

    pub fn note_delivery(&mut self)
        ensures { self.new ≡ delivered self.old }
    {
        self.delivering = true;
    }

    // Whether the report is due now, the last sample being of the reading `last`: `soft` nanoseconds after it. Where the hard
    // deadline is not the longer one, the outage is left to it.
    #[tactic(auto, unfolding(crate::specs::Episode::is_due))]
    pub fn due(self, last: u64, now: u64, soft: u64, hard: u64) -> bool
        ensures { result ≡ is_due self last now soft hard }
    {
        if !self.delivering {
            return false;
        }
        if hard <= soft {
            return false;
        }
        now.saturating_sub(last) >= soft
    }

    // Makes the report, and none more before the next delivery.
    pub fn report(&mut self)
        ensures { self.new ≡ reported self.old }
    {
        self.delivering = false;
        self.pending = true;
    }

    // Whether a report was made, which is told once.
    pub fn take(&mut self) -> bool
        ensures { record { stalled = result; episode = self.new } ≡ taken self.old }
    {
        std::mem::replace(&mut self.pending, false)
    }
}
