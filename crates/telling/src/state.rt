// What a session holds, as a line of text.
use attenuator::Controller;
use console::output::Output;
use model::receiver::{Parked, Pending, Reading, Receiver};
use model::session::{Clocks, Common, Session};
use receiving::queue::left;
use sequence::SeqTracker;
use stall::StallEpisode;

fn none(out: &mut Output) {
    out.put(b"none")
}

// A number, or that there is none.
fn number_or_none(out: &mut Output, n: Option<u64>) {
    match n {
        None => none(out),
        Some(n) => out.number(n),
    }
}

fn window(out: &mut Output, w: Option<Parked>) {
    match w {
        None => none(out),
        Some(p) => out.filled(b"# # #", &[p.from, p.accounted, p.left]),
    }
}

fn controller(out: &mut Output, c: Controller) {
    out.number(u64::from(c.db));
    out.put(b" run ");
    number_or_none(out, c.run_start);
    out.put(b" overload ");
    number_or_none(out, c.last_overload);
    out.named(b" quiet ", c.quiet_since)
}

fn attenuation(out: &mut Output, a: Option<Controller>) {
    match a {
        None => out.put(b"off"),
        Some(c) => controller(out, c),
    }
}

// The tracker and the queue.
fn tracked(out: &mut Output, t: SeqTracker, waiting: usize) {
    out.put(b"state expected ");
    number_or_none(out, t.expected.map(u64::from));
    out.filled(
        b" stale # waiting #",
        &[u64::from(t.stale_run), waiting as u64],
    )
}

// The wait anchor.
fn waited(out: &mut Output, r: Reading) {
    out.put(b" anchor ");
    number_or_none(out, r.wait_entered)
}

fn readings(out: &mut Output, valid: u64, accepted: u64, taken: u64) {
    out.filled(b" valid # accepted # taken #", &[valid, accepted, taken])
}

fn parked(out: &mut Output, p: Option<Parked>) {
    out.put(b" window ");
    window(out, p)
}

fn pending(out: &mut Output, p: Pending) {
    out.put(b" missing ");
    number_or_none(out, p.missing);
    out.put(b" discontinuity ");
    number_or_none(out, p.discontinuity)
}

// A receiver, without its stall.
fn receiver(out: &mut Output, r: Receiver) {
    tracked(out, r.tracker, left(r));
    waited(out, r.reading);
    readings(out, r.last_valid_iq, r.last_accepted_iq, r.read_returned);
    parked(out, r.parked);
    pending(out, r.pending)
}

fn stall(out: &mut Output, e: StallEpisode) {
    out.put(b" delivering ");
    out.yes(e.delivering);
    out.put(b" stalled ");
    out.yes(e.pending)
}

fn counts(out: &mut Output, seq: [u32; 4]) {
    out.filled(b" counts # # # #", &seq.map(u64::from))
}

fn clocks(out: &mut Output, c: Clocks) {
    out.filled(
        b" clocks # # #",
        &[c.general, c.rx_tx_specific, c.high_priority],
    )
}

fn attenuator(out: &mut Output, a: Option<Controller>) {
    out.put(b" attenuation ");
    attenuation(out, a);
    out.put(b"\n")
}

// The counts, the clocks and the attenuation.
fn common(out: &mut Output, c: Common) {
    counts(out, c.seq);
    clocks(out, c.clocks);
    attenuator(out, c.attenuation)
}

// What a session holds.
pub fn tell(out: &mut Output, s: Session) {
    receiver(out, s.receiver);
    out.named(b" malformed ", u64::from(s.common.consecutive_malformed));
    stall(out, s.receiver.stall);
    common(out, s.common)
}
