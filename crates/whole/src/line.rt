// A line, read: a call is gathered, and an `open` or the end asks for the session in hand to be run.
use super::run::Sitting;
use super::tell::too_long;
use batch::list::List;
use console::output::Output;
use desk::desk::{Course, Desk, Request};
use encoding::lent::Asked;
use lines::{Expected, Read, read_call};

// A call of the session in hand. There has to be one, and its settings have to be accepted.
fn gather(
    d: &mut Desk,
    line: &[u8],
    asked: &Asked,
    sitting: Option<Sitting>,
    list: &mut List,
    out: &mut Output,
) {
    match sitting {
        Some(sitting) if sitting.radio.is_some() => {
            d.asks = Request::Nothing;
            if list.add(asked).is_err() {
                too_long(d, sitting, out);
            }
        }
        _ => d.stop(Expected::Open, line, out),
    }
}

// An `open` has to be readable. Its session is opened once the one before it is run.
fn read_line(
    d: &mut Desk,
    line: &[u8],
    sitting: Option<Sitting>,
    list: &mut List,
    out: &mut Output,
) {
    let mut asked = Asked::new();
    let radio = sitting.and_then(|s| s.radio);
    match read_call(line, radio.unwrap_or_default(), &mut asked) {
        Ok(Read::Nothing | Read::State | Read::Radio) => d.asks = Request::Nothing,
        Ok(Read::Open) => d.read_open(line, out),
        Ok(Read::Call) => gather(d, line, &asked, sitting, list, out),
        Err(e) => d.stop(e, line, out),
    }
}

// The line in hand, counted. Where there is none the list ends.
pub(crate) fn read(
    d: &mut Desk,
    line: Option<&[u8]>,
    sitting: Option<Sitting>,
    list: &mut List,
    out: &mut Output,
) {
    match line {
        Some(line) => {
            d.line = d.line.wrapping_add(1);
            read_line(d, line, sitting, list, out);
        }
        None => {
            d.asks = Request::End;
            d.course = Course::Over;
        }
    }
}
