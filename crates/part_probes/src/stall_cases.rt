// The episode of a soft stall: its test, and a list of calls run on it.
use casebook::answer::Answer;
use probes::double_cases::of_bool;
use stall::StallEpisode;

// What a kind asks of the episode: 0, 1 and 2.
#[derive(Clone, Copy)]
enum Call {
    Delivery,
    Report,
    Take,
}

fn call_of(kind: u8) -> Option<Call> {
    match kind {
        0 => Some(Call::Delivery),
        1 => Some(Call::Report),
        2 => Some(Call::Take),
        _ => None,
    }
}

// n is the soft time, whether samples came, the last sample's reading, the reading now and the hard time.
pub fn due(n: [u64; 6]) -> Answer {
    if n[1] > 1 {
        return Answer::Nothing;
    }
    let e = StallEpisode {
        delivering: n[1] == 1,
        pending: false,
    };
    of_bool(e.due(n[2], n[3], n[0], n[4]))
}

// The calls that hand out nothing tell no stall.
fn called(e: &mut StallEpisode, call: Call) -> bool {
    match call {
        Call::Delivery => e.note_delivery(),
        Call::Report => e.report(),
        Call::Take => return e.take(),
    }
    false
}

fn told(stalled: bool, e: StallEpisode) -> u8 {
    u8::from(stalled) * 4 + u8::from(e.delivering) * 2 + u8::from(e.pending)
}

// An octet of p is a call, and becomes what it told and left. No answer where its kind is unknown.
pub fn calls(p: &mut [u8]) -> Answer {
    let mut e = StallEpisode::new();
    for x in p.iter_mut() {
        let Some(call) = call_of(*x) else {
            return Answer::Nothing;
        };
        let stalled = called(&mut e, call);
        *x = told(stalled, e);
    }
    Answer::Octets
}
