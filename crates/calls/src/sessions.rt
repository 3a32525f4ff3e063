// The session in hand: after a line, and what is told of it. What a session is needed for stands here, and nothing else: each
// statement of a function that holds one costs the proof as much as a small function.
ghost use Rattle.std.specs.Prelude.{◌≡◌, Ok, is_some, true};
ghost use Rattle.lines.specs.Call.{Fit};
ghost use Rattle.examining.specs.Stands.{Standing};
ghost use Rattle.holding.specs.Held.{Holds, Kept};
ghost use Rattle.desk.specs.Asked.{Asks, IsRun};
ghost use Rattle.calls.specs.Came.{came_ran};

use super::practice;
use super::practice::Practice;
use console::output::Output;
use desk::desk::{Course, Desk, Request};
use desk::key;
use encoding::lent::{Asked, Given};
use encoding::words::KIND;
use examining::sitting::{Sitting, Unmarked, end_of};
use holding::{called, opened};
use lines::{Endpoint, Expected};
use model::settings::SettingsError;
use stream::F32_PER_DATAGRAM;
use tally::account::{Account, TABLE, none};
use telling::state;

// What is lent to every line: what it is read into, what a call gives, and what stands beside the session.
#[derive(Drop)]
pub(crate) struct Rooms {
    pub(crate) asked: Asked,
    pub(crate) given: Given,
    pub(crate) samples: [f32; F32_PER_DATAGRAM],
    pub(crate) table: [u64; TABLE],
}

impl Rooms {
    pub(crate) fn new() -> Rooms {
        Rooms {
            asked: Asked::new(),
            given: Given::new(),
            samples: [0.0; F32_PER_DATAGRAM],
            table: [0; TABLE],
        }
    }
}

// What came of a line.
#[derive(Clone, Copy)]
pub(crate) enum Came {
    // it asked for no call and no session
    Nothing,
    Called(Result<(), Unmarked>),
    Opened(Result<(), SettingsError>),
}

// Where the radio of the session in hand is.
pub(crate) fn radio_of(held: Option<Sitting>) -> Option<Endpoint>
    ensures { is_some result ≡ is_some held }
{
    let settings = held?.session.common.settings;
    Some(Endpoint {
        ip: settings.radio_ip,
        port: settings.port,
    })
}

// Its account, in which a call is noted.
pub(crate) fn account_of(held: Option<Sitting>) -> Account {
    held.map_or(none(), |sitting| sitting.account)
}

// A call. That of which a stretch has no room is the last: the account does not stand any more, and is not told.
fn call(held: &mut Option<Sitting>, rooms: &mut Rooms) -> Came
    requires fit { Fit rooms.old.asked.call }
    requires session { is_some held.old ≡ true }
    requires holds { Holds held.old rooms.old.samples rooms.old.table }
    ensures holds_2 { Holds held.new rooms.new.samples rooms.new.table }
    ensures run { came_ran result ≡ Ok tt }
{
    let Some(mut sitting) = *held else {
        return Came::Nothing;
    };
    let outcome = called(
        &mut sitting,
        &mut rooms.samples,
        &rooms.asked,
        &mut rooms.given,
        &mut rooms.table,
    );
    *held = match outcome {
        Ok(()) => Some(sitting),
        Err(_) => None,
    };
    Came::Called(outcome)
}

fn open(held: &mut Option<Sitting>, line: &[u8], rooms: &Rooms) -> Came
    ensures { Holds held.new rooms.now.samples rooms.now.table }
{
    match opened(line, &rooms.samples, &rooms.table) {
        Ok(sitting) => {
            *held = Some(sitting);
            Came::Opened(Ok(()))
        }
        Err(unseated) => {
            *held = None;
            Came::Opened(Err(unseated.error))
        }
    }
}

// After the line in hand, which asks for this. A call is run: its numbers are such as a line is read as. That the account stands is a
// clause and no ghost field of the session: a ghost field has to be a fact with one proof, and `Stands` is told by a list of calls.
pub(crate) fn after(
    held: &mut Option<Sitting>,
    asks: Request,
    line: Option<&[u8]>,
    rooms: &mut Rooms,
) -> Came
    requires asks { Asks asks (is_some held.old) rooms.old.asked.call }
    requires holds { Holds held.old rooms.old.samples rooms.old.table }
    ensures holds_2 { Holds held.new rooms.new.samples rooms.new.table }
    ensures run { IsRun asks (came_ran result) }
{
    match (asks, line) {
        (Request::Call, _) => call(held, rooms),
        (Request::Open, Some(line)) => open(held, line, rooms),
        _ => Came::Nothing,
    }
}

// The account of a session that ends.
fn put_account(s: Sitting, table: &[u64; TABLE], out: &mut Output)
    requires { Standing s.session table.now s.account }
{
    key::put_rows(out, table, s.account, end_of(&s.session))
}

fn ended(held: Option<Sitting>, table: &[u64; TABLE], out: &mut Output)
    requires { Kept held table.now }
{
    if let Some(sitting) = held {
        put_account(sitting, table, out);
    }
}

// Of the session as it is before the line in hand: its state, its account where it ends, or what the radio beside it keeps.
pub(crate) fn told(
    held: Option<Sitting>,
    p: Practice,
    d: &Desk,
    table: &[u64; TABLE],
    out: &mut Output,
)
    requires { Kept held table.now }
{
    match d.asks {
        Request::State => {
            d.put_number(out);
            if let Some(sitting) = held {
                state::tell(out, sitting.session);
            }
        }
        Request::Radio => {
            d.put_number(out);
            practice::tell(p, out);
        }
        Request::Open | Request::End => ended(held, table, out),
        Request::Nothing | Request::Call => {}
    }
}

// What a line is answered, by what came of it and the account before it.
pub(crate) fn answered(came: Came, before: Account, d: &mut Desk, rooms: &Rooms, out: &mut Output) {
    match came {
        Came::Called(outcome) => {
            d.tell_called(rooms.asked.call[KIND], before, &rooms.given, out);
            if let Err(Unmarked::Full) = outcome {
                d.stop(Expected::FewerStretches, b"", out);
            }
        }
        Came::Opened(answer) => d.tell_opened(answer, out),
        Came::Nothing if d.asks == Request::End => d.course = Course::Over,
        Came::Nothing => {}
    }
}
