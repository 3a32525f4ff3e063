// A list of calls, run: from a session just opened, or carried on from one that has run already.
ghost use Rattle.std.specs.Prelude.{◌≡◌, length, Ok};
ghost use Rattle.model.specs.Settings.{settings_answer, is_given};
ghost use Rattle.model.specs.Gives.{joined};
ghost use Rattle.encoding.specs.Lists.{lent_with, outcome_of, room};
ghost use Rattle.replay.specs.Runs.{RunsAll, Carries};
ghost use Rattle.replay.specs.Replay.{Replays};

use encoding::check::{ListError, check};
use encoding::lent::Calls;
use encoding::words::{Amounts, CALL_LEN, nothing, plus, taken_by, words_at};
use model::session::Session;
use model::settings::{Settings, SettingsError};
use opening::open::open;
use stream::F32_PER_DATAGRAM;
use turns::turn::{Part, turn_at};

// How much is lent.
fn room_of(list: Calls, packets: &[u8], places: &[f32]) -> Amounts
    ensures { result ≡ room (lent_with list.entry packets.now places.now) }
{
    Amounts {
        octets: list.octets.len(),
        numbers: list.numbers.len(),
        packets: packets.len(),
        places: places.len(),
    }
}

// Every call in turn, of a list that was checked.
fn run(
    s: &mut Session,
    samples: &mut [f32; F32_PER_DATAGRAM],
    list: Calls,
    packets: &mut [u8],
    places: &mut [f32],
    answers: &mut [u64],
)
    requires { outcome_of (lent_with list packets.old places.old) (length answers.old) ≡ Ok tt }
    ensures { RunsAll (joined s.old samples.old) (lent_with list.entry packets.old places.old)
        answers.new packets.new places.new (joined s.new samples.new) }
{
    let room = room_of(list, packets, places);
    let n = list.words.len() / CALL_LEN;
    let mut taken = nothing();
    for i in 0..n {
        let words = words_at(list.words, 8 * i);
        let next = plus(taken, taken_by(words), room);
        let part = Part {
            words,
            from: taken,
            to: next,
            at: 8 * i,
        };
        turn_at(s, samples, list, part, packets, places, answers);
        taken = next;
    }
}

// Runs a list of calls from any session. `list` has eight numbers a call (`encoding::words`), and what the calls bring, one behind the
// other; `packets` and `places` are lent to the calls, one behind the other, and `answers` has as many places as the list has numbers.
// Ok: each answer stands in its eight places (`answers`), each packet and sample in its call's own part. An Err names what is wrong with
// the list: the session and every lent buffer are then as they were.
pub fn carry_on(
    s: &mut Session,
    samples: &mut [f32; F32_PER_DATAGRAM],
    list: Calls,
    packets: &mut [u8],
    places: &mut [f32],
    answers: &mut [u64],
) -> Result<(), ListError>
    ensures { Carries result (joined s.old samples.old) (lent_with list.entry packets.old places.old)
        answers.old answers.new packets.new places.new (joined s.new samples.new) }
{
    check(list.words, room_of(list, packets, places), answers.len())?;
    run(s, samples, list, packets, places, answers);
    Ok(())
}

fn is_accepted(answer: Result<u16, SettingsError>) -> bool
    ensures { result ≡ is_given (settings_answer answer) }
{
    answer.is_ok()
}

// How many samples are lent. Their type says it; demand 3 needs it said of the list.
fn lent_samples(samples: &[f32]) -> usize
    ensures { result ≡ length samples.now }
{
    samples.len()
}

// What Open answered, what became of the list, and the session after it.
#[derive(Clone, Copy)]
pub struct Replayed {
    pub answer: Result<u16, SettingsError>,
    pub outcome: Result<(), ListError>,
    pub session: Session,
}

// Runs a list of calls from a session just opened with these settings and this opening reading; what is lent is as for `carry_on`.
// Err(NotOpened): the settings were refused, `answer` says by which row, and nothing is run. Of a list that was run, demand 3 holds: it
// is part of the promise. Seven parameters: two are Open's, and the four that are written are each their caller's own (docs/DECISIONS.md).
pub fn replay(
    settings: Settings,
    opening: u64,
    samples: &mut [f32; F32_PER_DATAGRAM],
    list: Calls,
    packets: &mut [u8],
    places: &mut [f32],
    answers: &mut [u64],
) -> Replayed
    ensures { Replays settings opening result.answer result.outcome samples.old (lent_with list.entry packets.old places.old)
        answers.old answers.new packets.new places.new (joined result.session samples.new) }
{
    let opened = open(settings, opening);
    let answer = opened.answer;
    let mut session = opened.session;
    if !is_accepted(answer) {
        return Replayed {
            answer,
            outcome: Err(ListError::NotOpened),
            session,
        };
    }
    lent_samples(&samples[..]);
    let outcome = carry_on(&mut session, samples, list, packets, places, answers);
    Replayed {
        answer,
        outcome,
        session,
    }
}
