// The attenuator's controller, run on a list of calls, and the times that it is usually given.
ghost use Rattle.std.specs.Prelude.{◌+◌, ◌≤◌, ◌<◌, length};

use attenuator::{AttenuationCause, AttenuationStep, Controller, Timing};
use casebook::answer::Answer;

// A call's octets: its kind, and the reading big-endian.
const CALL: usize = 9;

// What a kind asks of the controller: 0, 1 and 2.
#[derive(Clone, Copy)]
enum Call {
    Clear,
    Overload,
    Tick,
}

fn call_of(kind: u8) -> Option<Call> {
    match kind {
        0 => Some(Call::Clear),
        1 => Some(Call::Overload),
        2 => Some(Call::Tick),
        _ => None,
    }
}

pub fn reading(p: &[u8], at: usize) -> u64
    requires { at + 8 ≤ length p.now }
{
    let high = octets::get_u32(p, at) as u64;
    let low = octets::get_u32(p, at + 4) as u64;
    high * 4294967296 + low
}

pub fn put_reading(p: &mut [u8], at: usize, v: u64)
    requires { at + 8 ≤ length p.old }
{
    octets::put_u32(p, at, (v / 4294967296) as u32);
    octets::put_u32(p, at + 4, (v % 4294967296) as u32);
}

fn called(c: &mut Controller, call: Call, now: u64) -> Option<AttenuationStep> {
    match call {
        Call::Clear => c.observe(false, now),
        Call::Overload => c.observe(true, now),
        Call::Tick => c.tick(now),
    }
}

fn of_cause(cause: AttenuationCause) -> u8 {
    match cause {
        AttenuationCause::Overload => 1,
        AttenuationCause::Quiet => 2,
    }
}

// Four octets: a step's cause, the level that it left and the one that it led to, each 0 where there is none, and the level.
fn told(step: Option<AttenuationStep>, db: u8) -> u32 {
    match step {
        None => u32::from(db),
        Some(s) => {
            u32::from(of_cause(s.cause)) * 16777216
                + u32::from(s.from_db) * 65536
                + u32::from(s.to_db) * 256
                + u32::from(db)
        }
    }
}

// The front of a call's octets becomes what it told. No answer where a kind is unknown or the last call is cut.
fn run(opened: Controller, p: &mut [u8]) -> Answer {
    let mut c = opened;
    for call in p.chunks_mut(CALL) {
        if call.len() < CALL {
            return Answer::Nothing;
        }
        let Some(kind) = call_of(call[0]) else {
            return Answer::Nothing;
        };
        let step = called(&mut c, kind, reading(call, 1));
        octets::put_u32(call, 0, told(step, c.db));
    }
    Answer::Octets
}

// n is the level, the hold, the trip and the release time, and the opening reading.
pub fn calls(n: [u64; 6], p: &mut [u8]) -> Answer {
    let Ok(db) = u8::try_from(n[0]) else {
        return Answer::Nothing;
    };
    let timing = Timing {
        hold: n[1],
        trip_after: n[2],
        release_after: n[3],
    };
    run(Controller::new(db, n[4], timing), p)
}

// The usual hold, trip and release time by 0, 1 and 2.
pub fn usual(which: usize) -> Answer {
    let t = Timing::default();
    match which {
        0 => Answer::Number(t.hold),
        1 => Answer::Number(t.trip_after),
        _ => Answer::Number(t.release_after),
    }
}
