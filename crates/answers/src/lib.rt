// What a call answered, as two numbers: which answer, and its value. specs/Code has the table.
#![tactic(auto)]

ghost use Rattle.std.specs.Prelude.{◌≡◌, length};
ghost use Rattle.model.specs.Answer as Answer;
ghost use Rattle.answers.specs.Code.{coded, numbers_of};

use model::answer::{ArrivalAnswer, PassAnswer, Refusal};
use model::command::Streams;
use sequence::SeqEvent;

// The codes of the answers (specs/Code): numbers, since a list's answers go out as numbers. A refusal's value is 01's number of it;
// that of an I/Q answer is the missing, of TOOK the pairs, of HOLDS what the slot held.
pub const REFUSED: u64 = 0;

pub const BEGUN: u64 = 1;

pub const READY: u64 = 2;

pub const SOFT_STALL: u64 = 3;

pub const HARD_STALL: u64 = 4;

pub const SENT: u64 = 5;

pub const IGNORED: u64 = 6;

pub const STATUS: u64 = 7;

pub const MALFORMED: u64 = 8;

pub const MALFORMED_LIMIT: u64 = 9;

pub const CLOSED: u64 = 10;

pub const IN_ORDER: u64 = 11;

pub const STALE: u64 = 12;

pub const RESTART: u64 = 13;

pub const TOOK: u64 = 14;

pub const EMPTY: u64 = 15;

pub const HOLDS: u64 = 16;

pub const NOT_STALLED: u64 = 17;

pub const STALLED: u64 = 18;

// A gap of n datagrams is n more than this.
pub const GAP: u64 = 19;

// The numbers of an answer: its code, its value, how many streams were written, and five places for their offsets.
pub const ANSWER_LEN: usize = 8;

pub const CODE: usize = 0;

pub const VALUE: usize = 1;

pub const STREAMS: usize = 2;

#[derive(Clone, Copy)]
pub struct Code {
    pub code: u64,
    pub value: u64,
}

// An answer that gives no number.
fn word(code: u64) -> Code
    ensures { result ≡ record { code = code; value = 0 } }
{
    Code { code, value: 0 }
}

// By 01's number.
fn refused(r: Refusal) -> Code
    ensures { result ≡ coded (Answer.refused_by r) }
{
    Code {
        code: REFUSED,
        value: r.number(),
    }
}

pub fn of_begin(a: Result<(), Refusal>) -> Code
    ensures { result ≡ coded (Answer.begin_answer a) }
{
    match a {
        Ok(()) => word(BEGUN),
        Err(r) => refused(r),
    }
}

pub fn of_pass(a: Result<PassAnswer, Refusal>) -> Code
    ensures { result ≡ coded (Answer.pass_answer a) }
{
    match a {
        Ok(PassAnswer::Ready) => word(READY),
        Ok(PassAnswer::SoftStall) => word(SOFT_STALL),
        Ok(PassAnswer::HardStall) => word(HARD_STALL),
        Ok(PassAnswer::Sent(_)) => word(SENT),
        Err(r) => refused(r),
    }
}

fn of_event(event: SeqEvent, missing: u64) -> Code
    ensures { result ≡ coded (Answer.heard event missing) }
{
    match event {
        SeqEvent::InOrder => Code {
            code: IN_ORDER,
            value: missing,
        },
        SeqEvent::Stale => Code {
            code: STALE,
            value: missing,
        },
        SeqEvent::Restart => Code {
            code: RESTART,
            value: missing,
        },
        SeqEvent::Gap(n) => Code {
            code: n as u64 + GAP,
            value: missing,
        },
    }
}

pub fn of_arrival(a: Result<ArrivalAnswer, Refusal>) -> Code
    ensures { result ≡ coded (Answer.arrival_answer a) }
{
    match a {
        Ok(ArrivalAnswer::Ignored) => word(IGNORED),
        Ok(ArrivalAnswer::Status(_)) => word(STATUS),
        Ok(ArrivalAnswer::Malformed) => word(MALFORMED),
        Ok(ArrivalAnswer::MalformedLimit) => word(MALFORMED_LIMIT),
        Ok(ArrivalAnswer::Iq { event, missing }) => of_event(event, missing),
        Err(r) => refused(r),
    }
}

pub fn of_take(a: Result<usize, Refusal>) -> Code
    ensures { result ≡ coded (Answer.take_answer a) }
{
    match a {
        Ok(pairs) => Code {
            code: TOOK,
            value: pairs as u64,
        },
        Err(r) => refused(r),
    }
}

pub fn of_close(a: Result<Streams, Refusal>) -> Code
    ensures { result ≡ coded (Answer.close_answer a) }
{
    match a {
        Ok(_) => word(CLOSED),
        Err(r) => refused(r),
    }
}

pub fn of_slot(slot: Option<u64>) -> Code
    ensures { result ≡ coded (Answer.slot slot) }
{
    match slot {
        None => word(EMPTY),
        Some(n) => Code {
            code: HOLDS,
            value: n,
        },
    }
}

pub fn of_flag(stalled: bool) -> Code
    ensures { result ≡ coded (Answer.flag stalled) }
{
    if stalled {
        word(STALLED)
    } else {
        word(NOT_STALLED)
    }
}

// An answer as eight numbers.
pub fn put(a: Code, l: Streams, out: &mut [u64])
    requires { (length out.old ≡ 8) × (length l.offsets ≡ 5) }
    ensures { out.new ≡ numbers_of a l }
{
    let o = l.offsets;
    out[CODE] = a.code;
    out[VALUE] = a.value;
    out[STREAMS] = l.count as u64;
    out[3] = o[0] as u64;
    out[4] = o[1] as u64;
    out[5] = o[2] as u64;
    out[6] = o[3] as u64;
    out[7] = o[4] as u64;
}
