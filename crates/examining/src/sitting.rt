// A session and its account, call by call.
ghost use Rattle.std.specs.Prelude.{◌≡◌};
ghost use Rattle.model.specs.Gives.{joined};
ghost use Rattle.encoding.specs.Lists.{lent_by};
ghost use Rattle.examining.specs.Marks.{Sits, Notes, Marks, end_of};

use encoding::check::ListError;
use encoding::lent::{Asked, Calls, Given};
use marking::note::note;
use model::session::Session;
use model::settings::{Settings, SettingsError};
use opening::open::open;
use replay::run::carry_on;
use session::readers::{gap_stats, loss_total, waiting_samples};
use stream::F32_PER_DATAGRAM;
use tally::account::{Account, TABLE, none};
use tally::rows::End;

#[derive(Clone, Copy)]
pub struct Sitting {
    pub session: Session,
    pub account: Account,
}

// What `sit` gives where the settings are refused: the row that applies, and the session that Open gives then, which is closed, with an
// account in which nothing is noted.
#[derive(Clone, Copy)]
pub struct Unseated {
    pub error: SettingsError,
    pub closed: Sitting,
}

// Why a call is not noted in the account.
#[derive(Clone, Copy)]
pub enum Unmarked {
    // it was not run, and nothing has changed
    NotRun(ListError),
    // it was run, and began a stretch for which the table has no room
    Full,
}

// What Open gives with these settings and this reading, and an account in which nothing is noted; an Err has them beside the row of the
// settings that applies.
pub fn sit(settings: Settings, opening: u64) -> Result<Sitting, Unseated>
    ensures { Sits result settings opening }
{
    let opened = open(settings, opening);
    let sitting = Sitting {
        session: opened.session,
        account: none(),
    };
    // no `map_err`: the edit of a session of refused settings plants one case's sitting in the other
    match opened.answer {
        Ok(_) => Ok(sitting),
        Err(error) => Err(Unseated {
            error,
            closed: sitting,
        }),
    }
}

// What a call that was run was answered, noted.
fn noted(
    a: &mut Account,
    asked: &Asked,
    given: &Given,
    table: &mut [u64; TABLE],
) -> Result<(), Unmarked>
    ensures { Notes result asked.now.call asked.now.octets given.now.answers a.old a.new table.old table.new }
{
    note(table, a, &asked.call, &asked.octets, &given.answers).map_err(|_| Unmarked::Full)
}

// One call, run and noted: what it is and brings, and what it is lent, as one of a list (`replay::run::carry_on`). Its answer goes to the
// account in the lent table.
pub fn mark(
    s: &mut Sitting,
    samples: &mut [f32; F32_PER_DATAGRAM],
    asked: &Asked,
    given: &mut Given,
    table: &mut [u64; TABLE],
) -> Result<(), Unmarked>
    ensures { Marks result (joined s.old.session samples.old)
        (lent_by asked.now.call asked.now.octets asked.now.numbers given.old.packets
        given.old.places)
        s.old.account s.new.account given.old.answers given.new.answers given.new.packets given.new.places
        (joined s.new.session samples.new) table.old table.new }
{
    let list = Calls {
        words: &asked.call,
        octets: &asked.octets,
        numbers: &asked.numbers,
    };
    let outcome = carry_on(
        &mut s.session,
        samples,
        list,
        &mut given.packets,
        &mut given.places,
        &mut given.answers,
    );
    match outcome {
        Err(e) => Err(Unmarked::NotRun(e)),
        Ok(()) => noted(&mut s.account, asked, given, table),
    }
}

// What is told of a session with its account.
pub fn end_of(s: &Session) -> End
    ensures { result ≡ end_of s.now }
{
    let health = gap_stats(s);
    End {
        waiting: waiting_samples(s) as u64,
        dropped: health.dropped_packets,
        gaps: health.gaps_detected,
        malformed: health.malformed_packets,
        loss: loss_total(s),
    }
}
