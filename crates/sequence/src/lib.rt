// The tracker of datagram numbers: what a number means relative to the stream so far. 01, Numbers in the stream.
#![tactic(auto)]

ghost use Rattle.std.specs.Prelude.{◌≡◌};
ghost use Rattle.sequence.specs.Tracker.{new, zero_restarts, meaning, past, observed};

// A stale (late or repeated) datagram is at most this many behind the expected one.
const MAX_STALE_BEHIND: u32 = 64;

// So many behind, modulo 2^32.
const STALE_FROM: u32 = u32::MAX - MAX_STALE_BEHIND + 1;

// So many stale datagrams in a row are a restart.
const STALE_RUN_RESTART: u32 = 8;

#[derive(Clone, Copy)]
pub enum SeqEvent {
    InOrder,
    // so many datagrams were lost immediately before this one
    Gap(u32),
    Stale,
    Restart,
}

#[derive(Clone, Copy)]
pub struct SeqTracker {
    pub expected: Option<u32>,
    pub stale_run: u32,
}

// Number 0, where it is not the expected one, begins a new stream.
#[tactic(auto, unfolding(crate::specs::Tracker::zero_restarts))]
fn zero_restarts(seq: u32) -> bool
    ensures { result ≡ zero_restarts seq }
{
    seq == 0
}

// What seq is where `expected` is expected and run stale ones have come since the last accepted one.
fn judge(expected: u32, run: u32, seq: u32) -> SeqEvent
    ensures { result ≡ meaning (Some expected) run seq }
{
    let d = seq.wrapping_sub(expected);
    if d == 0 {
        return SeqEvent::InOrder;
    }
    if zero_restarts(seq) {
        return SeqEvent::Restart;
    }
    if d < 0x8000_0000 {
        return SeqEvent::Gap(d);
    }
    if d < STALE_FROM {
        return SeqEvent::Restart;
    }
    if run >= STALE_RUN_RESTART - 1 {
        return SeqEvent::Restart;
    }
    SeqEvent::Stale
}

impl SeqTracker {
    pub fn new() -> Self
        ensures { result ≡ new }
    {
        Self {
            expected: None,
            stale_run: 0,
        }
    }

    // seq is accepted as the latest datagram.
    #[tactic(auto, unfolding(crate::specs::Tracker::after))]
    fn rebaseline(&mut self, seq: u32)
        ensures { self.new ≡ past seq }
    {
        self.expected = Some(seq.wrapping_add(1));
        self.stale_run = 0;
    }

    // Tells what seq is and moves the tracker on; a stale one leaves the expected number where it was.
    pub fn observe(&mut self, seq: u32) -> SeqEvent
        ensures { record { event = result; tracker = self.new } ≡ observed self.old seq }
    {
        let Some(next) = self.expected else {
            self.rebaseline(seq);
            return SeqEvent::InOrder;
        };
        let event = judge(next, self.stale_run, seq);
        let SeqEvent::Stale = event else {
            self.rebaseline(seq);
            return event;
        };
        self.stale_run += 1;
        event
    }
}
