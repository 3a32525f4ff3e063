// One case: run, and told.
ghost use Rattle.std.specs.Prelude.{◌≤◌, IfSome, length};

use super::functions::{answer, named};
use super::tally::Tally;
use casebook::answer::{Answer, ROOM as OCTETS, is_as};
use casebook::case::{Case, read};
use casebook::report;
use console::output::Output;

// Whether a case came as expected. came and room are as is_as takes them.
fn told(a: Answer, came: &[u8], expected: &[u8], room: &mut [u8], out: &mut Output) -> bool {
    let fine = is_as(a, came, expected, room);
    if fine {
        report::as_expected(out);
    } else {
        report::other(out, a, came);
    }
    fine
}

// The octets that a case gives stand at the front of given, and those that are expected go to wanted.
fn one_case(c: Case, given: &mut [u8], wanted: &mut [u8], out: &mut Output) -> bool
    requires octets_in_bounds { IfSome c.given.octets (λ count. count ≤ length given.old) }
{
    let Some(expected) = c.expected else {
        report::not_understood(out);
        return false;
    };
    let n = c.given.octets.unwrap_or(0);
    let numbers = c.given.numbers;
    let a = match named(c.name, c.given) {
        Some(f) => answer(f, numbers, &mut given[..n]),
        None => Answer::Nothing,
    };
    told(a, &given[..n], expected, wanted, out)
}

// A line that is not blank.
fn one_told(line: &[u8], number: u64, out: &mut Output) -> bool {
    let mut given = [0u8; OCTETS];
    let mut wanted = [0u8; OCTETS];
    let c = read(line, &mut given);
    report::case(out, number, c.name);
    one_case(c, &mut given, &mut wanted, out)
}

// A comment runs to the line's end.
pub(crate) fn one_line(line: &[u8], t: &mut Tally, out: &mut Output) {
    let n = text::find(line, b'#');
    let text = &line[..n];
    if text::past(text, b' ') < n {
        t.next_case(one_told(text, t.line, out));
    }
}
