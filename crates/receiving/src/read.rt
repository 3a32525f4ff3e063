// The read and its anchors: when it opened, since when it is quiet, and that it closes.
ghost use Rattle.std.specs.Prelude.{◌≡◌, not, ◌||◌};
ghost use Rattle.stall.specs.Episode.{reported};
ghost use Rattle.model.specs.Begin as Begin;
ghost use Rattle.model.specs.Parts.{with_stall};
ghost use Rattle.model.specs.Pass as Pass;
ghost use Rattle.model.specs.State as State;
ghost use Rattle.receiving.specs.Quiet.{quiet_at};

use model::receiver::{Reading, Receiver};
use outage::window::begun;

// 10 of Pass, Arrival and Take: the session is closed, or no read is open.
pub fn not_reading(closed: bool, r: Receiver) -> bool
    ensures { result ≡ (closed || not (State.is_open r)) }
{
    closed || r.reading.entered.is_none()
}

// 10 of Begin: the session is closed, or a read is open.
pub fn not_idle(closed: bool, r: Receiver) -> bool
    ensures { result ≡ (closed || State.is_open r) }
{
    closed || r.reading.entered.is_some()
}

// When quiet began: at the last valid I/Q datagram or at the read's anchor, whichever is later.
pub fn quiet_since(r: Receiver) -> u64
    ensures { result ≡ State.quiet_since_of r }
{
    r.last_valid_iq.max(r.reading.entered.unwrap_or(0))
}

// What quiet comes to. No closure chooses the step: what each comes to is the pass's own, and is written there beside the others.
#[derive(Clone, Copy)]
pub enum Quiet {
    // no stall is due
    Short,
    // told once, after a delivery
    Soft,
    Hard,
}

// At this reading, with these stall times: the soft one is told before the hard one.
pub fn quiet_at(r: Receiver, now: u64, soft_after: u64, stall_after: u64) -> Quiet
    ensures { result ≡ quiet_at r now soft_after stall_after }
{
    let last = quiet_since(r);
    if r.stall.due(last, now, soft_after, stall_after) {
        return Quiet::Soft;
    }
    if now.saturating_sub(last) >= stall_after {
        return Quiet::Hard;
    }
    Quiet::Short
}

// The read closes; its wait anchor stays.
pub fn shut(r: &mut Receiver)
    ensures { r.new ≡ Pass.shut r.old }
{
    r.reading.entered = None;
}

// A soft stall is reported and the read is closed; the last Take's time does not move.
pub fn stalled(r: &mut Receiver)
    ensures { r.new ≡ with_stall (Pass.shut r.old) (reported r.old.stall) }
{
    shut(r);
    r.stall.report();
}

// A read opens: the window after a pause, the wait anchor, and the read's own copy of it. An anchor that is set stays; an empty one
// becomes this reading.
pub fn begun_by(r: &mut Receiver, size: u64, now: u64)
    ensures { r.new ≡ Begin.begun_by size r.old now }
{
    let anchor = r.reading.wait_entered.or(Some(now));
    r.reading = Reading {
        wait_entered: anchor,
        entered: anchor,
    };
    r.parked = begun(r.parked, size, r.read_returned, now);
}
