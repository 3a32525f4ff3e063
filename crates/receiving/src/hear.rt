// A receiver hears a valid I/Q datagram: its number is judged, its samples are read, what it misses is reported, and it waits.
ghost use Rattle.std.specs.Prelude.{◌≡◌, [], ◌∷◌};
ghost use Rattle.base.specs.Told.{gives};
ghost use Rattle.iq.specs.Iq.{header_told};
ghost use Rattle.model.specs.Gives.{incoming_of};
ghost use Rattle.model.specs.Hearing.{valid, event_of, left_out, queued};
ghost use Rattle.receiving.specs.Hears.{Hears};

use health::InputHealthCounters;
use iq::parse_iq_datagram;
use model::incoming::Incoming;
use model::receiver::Receiver;
use outage::elapsed::{capped, unaccounted};
use outage::report::report_event;
use outage::window::used;
use sequence::SeqEvent;
use stream::{F32_PER_DATAGRAM, jump_limit};

// Stale too: the wait anchor is emptied, and the time of the last valid I/Q is now. The read's own anchor stays.
fn note_valid(r: &mut Receiver, now: u64)
    ensures { r.new ≡ valid r.old now }
{
    r.reading.wait_entered = None;
    r.last_valid_iq = now;
}

// The event that the number count is told as; the receiver has heard it then.
fn judge(r: &mut Receiver, rate: f64, now: u64, count: u32) -> SeqEvent
    ensures { (result ≡ event_of rate r.old now count) × (r.new ≡ left_out r.old now count) }
{
    let since_last = unaccounted(rate, r.last_accepted_iq, r.parked, now);
    let seen = r.tracker.observe(count);
    note_valid(r, now);
    capped(jump_limit(since_last, rate), seen)
}

// Any event but Stale, told with so much missing: its samples wait.
fn accept(r: &mut Receiver, missing: u64, now: u64)
    ensures { r.new ≡ queued r.old now missing r.old.pending }
{
    r.queue_pos = 0;
    r.parked = used(r.parked, missing);
    r.last_accepted_iq = now;
}

// What a datagram is told as, and what it misses.
#[derive(Clone, Copy)]
pub struct Heard {
    pub event: SeqEvent,
    pub missing: u64,
}

// The datagram has this count and a right header: whoever routed it has tested this. The number is judged before a sample is written,
// so that Stale leaves the lent samples as they were.
pub fn hear(
    r: &mut Receiver,
    health: &mut InputHealthCounters,
    samples: &mut [f32; F32_PER_DATAGRAM],
    rate: f64,
    count: u32,
    i: Incoming,
) -> Heard
    requires { header_told i.datagram.now ≡ gives (count ∷ []) }
    ensures { Hears rate r.old health.old samples.old count (incoming_of i.entry) result r.new health.new samples.new }
{
    let event = judge(r, rate, i.reading, count);
    if let SeqEvent::Stale = event {
        return Heard { event, missing: 0 };
    }
    // whoever routed it has tested the header, and there is room
    let _ = parse_iq_datagram(i.datagram, samples);
    let missing = report_event(rate, event, r, health, i);
    accept(r, missing, i.reading);
    Heard { event, missing }
}
