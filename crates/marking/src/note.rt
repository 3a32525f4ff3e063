// A call and its answer, as numbers in lent buffers, noted in the account.
ghost use Rattle.std.specs.Prelude.{◌≡◌, is_ok};
ghost use Rattle.encoding.specs.Words.{words_at};
ghost use Rattle.encoding.specs.Lists.{part};
ghost use Rattle.answers.specs.Code.{answer_of, answer_in};
ghost use Rattle.marking.specs.Records.{number_in, heard_as};
ghost use Rattle.marking.specs.Noting.{SaidBy, noted_by, table_noted, handed_by, note_of, table_of};

use answers::{CODE, GAP, IN_ORDER, RESTART, STALE, TOOK, VALUE};
use encoding::kind::Kind;
use encoding::words::{KIND, OCTETS, READING};
use tally::account::{Account, Full, TABLE, hand};
use tally::record::{Event, Record};

// What an answer's code tells of the stream.
fn said_by(code: u64) -> Option<Event>
    ensures { SaidBy code result }
{
    if code >= GAP {
        return Some(Event::Gap);
    }
    if code == IN_ORDER {
        return Some(Event::InOrder);
    }
    if code == STALE {
        return Some(Event::Stale);
    }
    if code == RESTART {
        return Some(Event::Restart);
    }
    None
}

// An arrival, by its answer: one that tells no event adds nothing.
fn arrived(
    table: &mut [u64; TABLE],
    a: &mut Account,
    reading: u64,
    number: u32,
    code: u64,
    value: u64,
) -> Result<(), Full>
    ensures value { record { account = a.new; fits = is_ok result } ≡ noted_by a.old (heard_as reading number (answer_of code value)) }
    ensures table_after { table.new ≡ table_noted table.old a.old (heard_as reading number (answer_of code value)) }
{
    match said_by(code) {
        None => Ok(()),
        Some(event) => {
            let x = Record {
                reading,
                number,
                event,
                missing: value,
            };
            tally::account::note(table, a, x)
        }
    }
}

// A Take, by its answer.
fn took(a: &mut Account, code: u64, value: u64)
    ensures { a.new ≡ handed_by a.old (answer_of code value) }
{
    if code == TOOK {
        hand(a, value);
    }
}

// A datagram's number; 0 of one that is too short to have a number.
fn number(datagram: &[u8]) -> u32
    ensures { result ≡ number_in datagram.now }
{
    if datagram.len() < 4 {
        return 0;
    }
    octets::get_u32(datagram, 0)
}

// That of the first n octets.
fn number_of(octets: &[u8; 2048], n: u64) -> u32
    ensures { result ≡ number_in (part 0 n octets.now) }
{
    number(&octets[..n.min(2048) as usize])
}

// A call, noted, from its eight numbers, the datagram that it brought (encoding), and its answer's eight numbers (answers). Where it
// begins a stretch for which there is no room, the account and the table are as they were.
pub fn note(
    table: &mut [u64; TABLE],
    a: &mut Account,
    call: &[u64; 8],
    octets: &[u8; 2048],
    answers: &[u64; 8],
) -> Result<(), Full>
    ensures value { record { account = a.new; fits = is_ok result } ≡
        note_of a.old (words_at call.now 0) octets.now (answer_in answers.now) }
    ensures table_after { table.new
        ≡ table_of table.old a.old (words_at call.now 0) octets.now (answer_in answers.now) }
{
    let code = answers[CODE];
    let value = answers[VALUE];
    let Some(kind) = Kind::of(call[KIND]) else {
        return Ok(());
    };
    match kind {
        Kind::Arrival => {
            let number = number_of(octets, call[OCTETS]);
            arrived(table, a, call[READING], number, code, value)
        }
        Kind::Take => {
            took(a, code, value);
            Ok(())
        }
        _ => Ok(()),
    }
}
