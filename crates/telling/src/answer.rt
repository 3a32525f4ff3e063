// A call's answer as a line of text, from its numbers (crate answers) and the buffers that it was lent.
ghost use Rattle.std.specs.Prelude.{◌≤◌, length};

use super::digest;
use answers::{CLOSED, CODE, EMPTY, GAP, HOLDS, SENT, STATUS, STREAMS, TOOK, VALUE};
use console::output::Output;
use encoding::kind::Kind;

// The offsets of the streams written stand behind their number.
const OFFSETS: usize = STREAMS + 1;

const MOST_STREAMS: usize = 5;

// The text of each code of answers, in their order from REFUSED to GAP; # is the value. A code is a number here since answers are lent
// as numbers (`answers::put`).
const ANSWERS: [u8; 166] = *b"refused #\n\
    begun\n\
    ready\n\
    soft stall\n\
    hard stall\n\
    sent\n\
    ignored\n\
    status\n\
    malformed\n\
    malformed limit\n\
    sent\n\
    in order #\n\
    stale #\n\
    restart #\n\
    took #\n\
    none\n\
    #\n\
    stalled no\n\
    stalled yes\n\
    gap #";

// By how many streams were written; # is the offset of one.
const SENT_TO: [u8; 64] = *b"sent none\n\
    sent #\n\
    sent # #\n\
    sent # # #\n\
    sent # # # #\n\
    sent # # # # #";

// The octets of a stream's packet: receive and high priority 1444, general and transmit 60.
fn size(offset: u64) -> usize
    ensures { result ≤ 1444 }
{
    match offset {
        1 | 3 => 1444,
        _ => 60,
    }
}

// The offsets of the streams written.
fn streams(answers: &[u64; 8]) -> &[u64]
    ensures { length result.now ≤ 5 }
{
    let n = answers[STREAMS].min(MOST_STREAMS as u64) as usize;
    &answers[OFFSETS..OFFSETS + n]
}

// How many octets their packets have.
fn octets_of(streams: &[u64]) -> usize
    requires { length streams.now ≤ 5 }
{
    streams.iter().map(|offset| size(*offset)).sum()
}

// The streams in order, and the digest of their packets; or that there are none.
fn sent(out: &mut Output, answers: &[u64; 8], packets: &[u8]) {
    out.nth_filled(&SENT_TO, b'\n', answers[STREAMS], &answers[OFFSETS..]);
    if answers[STREAMS] > 0 {
        digest::tell(out, digest::octets(packets, octets_of(streams(answers))));
    }
}

fn status(out: &mut Output, answers: &[u64; 8], packets: &[u8]) {
    out.put(b"status");
    if answers[STREAMS] > 0 {
        out.put(b" ");
        sent(out, answers, packets);
    }
}

fn took(out: &mut Output, pairs: u64, places: &[f32]) {
    out.named(b"took ", pairs);
    digest::tell(out, digest::samples(places, pairs as usize))
}

// An answer that is its text alone.
fn plain(out: &mut Output, code: u64, value: u64) {
    if code > GAP {
        return out.filled(b"gap #", &[value]);
    }
    out.nth_filled(&ANSWERS, b'\n', code, &[value])
}

// What a slot held, after the drain's name.
fn slot(out: &mut Output, kind: u64, code: u64, value: u64) {
    out.put(match Kind::of(kind) {
        Some(Kind::TakeMissing) => b"missing ",
        _ => b"discontinuity ",
    });
    plain(out, code, value)
}

fn answer(out: &mut Output, kind: u64, answers: &[u64; 8], packets: &[u8], places: &[f32]) {
    let value = answers[VALUE];
    let code = answers[CODE];
    match code {
        SENT | CLOSED => sent(out, answers, packets),
        STATUS => status(out, answers, packets),
        TOOK => took(out, value, places),
        EMPTY | HOLDS => slot(out, kind, code, value),
        _ => plain(out, code, value),
    }
}

// The answer of a call of this kind (encoding::kind), whose packets and samples are the first of these.
pub fn tell(out: &mut Output, kind: u64, answers: &[u64; 8], packets: &[u8], places: &[f32]) {
    answer(out, kind, answers, packets, places);
    out.put(b"\n")
}
