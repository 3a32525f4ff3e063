// What an accepted arrival misses, and where it is told and counted.
ghost use Rattle.std.specs.Prelude.{◌≡◌, ◌*◌};
ghost use Rattle.stream.specs.Elapsed.{restart_missing};
ghost use Rattle.model.specs.Gives.{incoming_of};
ghost use Rattle.model.specs.Parts.{with_pending};
ghost use Rattle.outage.specs.Report.{report_of, missing_by};

use super::elapsed::restart_outage;
use super::pending::add_pending;
use health::InputHealthCounters;
use model::incoming::Incoming;
use model::receiver::{Pending, Receiver};
use sequence::SeqEvent;
use stream::{SAMPLES_PER_DATAGRAM, below_half, restart_missing};

// A gap of k datagrams: k dropped, one gap, and 238 k missing.
fn report_gap(rate: f64, k: u32, pending: &mut Pending, health: &mut InputHealthCounters) -> u64
    ensures { record { missing = result; pending = pending.new; health = health.new } ≡
        report_of rate (SeqEvent.Gap k) (238 * k) pending.old health.old }
{
    let missing = SAMPLES_PER_DATAGRAM * (k as u64);
    health.record_dropped(k as u64);
    health.record_gap();
    if below_half(missing, rate) {
        add_pending(&mut pending.missing, missing);
    } else {
        add_pending(&mut pending.discontinuity, missing);
    }
    missing
}

// A restart after such an outage: one gap, and no dropped count.
fn report_restart(
    rate: f64,
    outage: u64,
    pending: &mut Pending,
    health: &mut InputHealthCounters,
) -> u64
    ensures { record { missing = result; pending = pending.new; health = health.new } ≡
        report_of rate SeqEvent.Restart (restart_missing outage rate) pending.old health.old }
{
    let missing = restart_missing(outage, rate);
    health.record_gap();
    add_pending(&mut pending.discontinuity, missing);
    missing
}

// What an event misses, told and counted, of a receiver whose tracker has heard it. Stale misses nothing.
pub fn report_event(
    rate: f64,
    event: SeqEvent,
    r: &mut Receiver,
    health: &mut InputHealthCounters,
    i: Incoming,
) -> u64
    ensures told { record { missing = result; pending = r.new.pending; health = health.new } ≡
        report_of rate event (missing_by rate event r.old (incoming_of i.entry)) r.old.pending health.old }
    ensures kept { r.new ≡ with_pending r.old r.new.pending }
{
    match event {
        SeqEvent::InOrder | SeqEvent::Stale => 0,
        SeqEvent::Gap(k) => report_gap(rate, k, &mut r.pending, health),
        SeqEvent::Restart => {
            let outage = restart_outage(rate, r, i);
            report_restart(rate, outage, &mut r.pending, health)
        }
    }
}
