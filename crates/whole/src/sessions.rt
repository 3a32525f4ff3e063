// A session, run at once, and what a user reads off it then. What a session is needed for stands here, and nothing else: each
// statement of a function that holds one costs the proof as much as a small function.
use batch::list::List;
use batch::replies::Answers;
use double::whole::floor_u64;
use encoding::lent::Calls;
use examining::sitting::end_of;
use lines::Opening;
use model::session::Session;
use replay::run::{Replayed, replay};
use session::readers::{attenuation_db, center_freq_hz, sample_rate};
use stream::F32_PER_DATAGRAM;
use tally::rows::End;

// In Hz, Hz and dB. Rate and centre are whole where the settings are accepted.
#[derive(Clone, Copy)]
pub(crate) struct Tuning {
    pub(crate) rate: u64,
    pub(crate) centre: u64,
    pub(crate) attenuation: u64,
}

// What a run left.
#[derive(Clone, Copy)]
pub(crate) enum Left {
    // the settings were refused, by 01's number
    Refused(u64),
    // the calls had no room, and none was run
    NotRun,
    Ran { counted: End, tuned: Tuning },
}

fn tuned(s: &Session) -> Tuning {
    Tuning {
        rate: floor_u64(sample_rate(s)),
        centre: floor_u64(center_freq_hz(s)),
        attenuation: attenuation_db(s) as u64,
    }
}

fn read_off(r: Replayed) -> Left {
    if let Err(e) = r.answer {
        return Left::Refused(e.number());
    }
    if r.outcome.is_err() {
        return Left::NotRun;
    }
    Left::Ran {
        counted: end_of(&r.session),
        tuned: tuned(&r.session),
    }
}

// Runs the calls that are gathered, from a session just opened so. Their answers, packets and samples go to the lent rooms.
pub(crate) fn run(o: Opening, list: &List, answers: &mut Answers) -> Left {
    let mut samples = [0.0f32; F32_PER_DATAGRAM];
    let end = 8 * list.calls;
    let words = &mut answers.words[..];
    let calls = Calls {
        words: &list.words[..end],
        octets: &list.octets,
        numbers: &list.numbers,
    };
    read_off(replay(
        o.settings,
        o.at,
        &mut samples,
        calls,
        &mut answers.packets,
        &mut answers.places,
        &mut words[..end],
    ))
}
