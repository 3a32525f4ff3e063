// The time that a gap or a restart is judged against, and what waits after a restart. 01, Numbers in the stream.
ghost use Rattle.std.specs.Prelude.{◌≡◌, min};
ghost use Rattle.double.specs.Whole.{most};
ghost use Rattle.stream.specs.Elapsed.{jump_limit};
ghost use Rattle.model.specs.Gives.{incoming_of};
ghost use Rattle.model.specs.Rules as Rules;
ghost use Rattle.outage.specs.Report.{outage_of};

use model::incoming::Incoming;
use model::receiver::{Parked, Receiver};
use sequence::{SeqEvent, SeqTracker};
use stream::{account_time, covered_time, jump_limit};

// E: how long ago an arrival was last accepted; in a park window, if larger, the time since its anchor less that of its account.
pub fn unaccounted(rate: f64, accepted: u64, parked: Option<Parked>, now: u64) -> u64
    ensures { result ≡ Rules.elapsed rate accepted parked now }
{
    let since_last = now.saturating_sub(accepted);
    let Some(window) = parked else {
        return since_last;
    };
    let pause = now.saturating_sub(window.from);
    since_last.max(pause.saturating_sub(account_time(window.accounted, rate)))
}

// A gap over the limit is a restart.
pub fn capped(limit: u64, event: SeqEvent) -> SeqEvent
    ensures { result ≡ Rules.capped limit event }
{
    let SeqEvent::Gap(k) = event else {
        return event;
    };
    if k as u64 <= limit {
        return event;
    }
    SeqEvent::Restart
}

// The datagrams that a waiting number of this event stands for.
fn datagrams(event: SeqEvent) -> u64
    ensures { result ≡ Rules.datagrams event }
{
    match event {
        SeqEvent::InOrder => 1,
        SeqEvent::Gap(k) => k as u64 + 1,
        SeqEvent::Stale => 0,
        SeqEvent::Restart => 1,
    }
}

// The datagrams that the waiting numbers stand for, each judged as it will be when it arrives.
fn backlog_datagrams(bound: u64, rate: f64, tracker: SeqTracker, waiting: &[u32]) -> u64
    ensures { result ≡ min (Rules.backlog (jump_limit bound rate) tracker waiting.now) most }
{
    let plausible = jump_limit(bound, rate);
    let mut copy = tracker;
    let mut total: u64 = 0;
    for seq in waiting {
        let event = copy.observe(*seq);
        total = total.saturating_add(datagrams(capped(plausible, event)));
    }
    total
}

// The time that a restart misses, of a receiver whose tracker has heard it. In a window it is bounded by E at the later reading, less
// what waits covers: the tracker is as this arrival left it.
pub fn restart_outage(rate: f64, r: &Receiver, i: Incoming) -> u64
    ensures { result ≡ outage_of rate r.now (incoming_of i.entry) }
{
    if r.parked.is_none() {
        return i.reading.saturating_sub(r.last_accepted_iq);
    }
    let bound = unaccounted(rate, i.reading, r.parked, i.later);
    let waits = backlog_datagrams(bound, rate, r.tracker, i.waiting);
    bound.saturating_sub(covered_time(waits, rate))
}
