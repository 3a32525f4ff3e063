// The cases of the input, and how many of them came as expected.
use super::one::one_line;
use super::tally::Tally;
use casebook::report::{too_long, total, unread};
use console::input::{Input, Next, ROOM as INPUT};
use console::output::Output;
use std::io::{Error, Read};

// A line longer than the room is a case not as expected and the last that is read: what follows of it is no line of its own, and
// must not pass for a case.
fn cut_off(t: &mut Tally, out: &mut Output) {
    t.next_line();
    too_long(out, t.line);
    t.next_case(false)
}

// An input that failed is told, and counts as a case not as expected: a cut input would pass with the cases that are left.
fn failed(t: &mut Tally, error: Error, out: &mut Output) {
    out.tell_fault(b"standard input", error);
    unread(out, t.line.wrapping_add(1));
    t.next_case(false)
}

// To the input's end. A proved loop has to end, and nothing says that an input does: it has more turns than any run takes.
pub(crate) fn run<R: Read>(from: &mut R, room: &mut [u8; INPUT], out: &mut Output) {
    let mut t = Tally::default();
    let mut input = Input::new();
    for _ in 0..u64::MAX {
        match input.next(room) {
            Next::Line(line) => {
                t.next_line();
                one_line(line, &mut t, out);
            }
            Next::TooLong(_) => {
                cut_off(&mut t, out);
                break;
            }
            Next::Over => break,
            Next::Cut => input.read_on(from, room, out),
        }
        if out.has_failed() || input.fault().is_some() {
            break;
        }
    }
    if let Some(error) = input.fault() {
        failed(&mut t, error, out);
    }
    total(out, t.cases, t.wrong);
    out.finish();
}
