// The lines of a list, and its sessions, each run where it ends.
use super::line::read;
use super::sessions;
use super::tell::tell;
use batch::list::List;
use batch::replies::Answers;
use console::output::Output;
use desk::desk::{Desk, Flags, Request};
use lines::{Endpoint, Opening, read_open};
use opening::settings::validate_protocol2;

// The session in hand: the number of its `open`, what that line says, and where its radio is, unless its settings are refused.
#[derive(Clone, Copy)]
pub(crate) struct Sitting {
    pub(crate) line: u64,
    pub(crate) opening: Opening,
    pub(crate) radio: Option<Endpoint>,
}

// By the line in hand, whose first word is `open`. Where its settings are refused no call is gathered.
fn opened(d: &Desk, line: &[u8], list: &mut List) -> Sitting {
    let opening = read_open(line);
    list.clear();
    Sitting {
        line: d.line,
        opening,
        radio: validate_protocol2(opening.settings)
            .is_ok()
            .then_some(opening.radio()),
    }
}

// A session that ends is run, and what it gave is told.
fn run_session(d: &mut Desk, sitting: Sitting, list: &List, out: &mut Output) {
    let mut answers = Answers::new();
    let left = sessions::run(sitting.opening, list, &mut answers);
    tell(d, sitting, left, list, &answers, out)
}

// The line in hand. An `open` and the end run the session before, and an `open` has a session of its own then.
fn run_line(
    d: &mut Desk,
    line: Option<&[u8]>,
    sitting: Option<Sitting>,
    list: &mut List,
    out: &mut Output,
) -> Option<Sitting> {
    read(d, line, sitting, list, out);
    if let (Request::Open | Request::End, Some(sitting)) = (d.asks, sitting) {
        run_session(d, sitting, list, out);
    }
    match (d.asks, line) {
        (Request::Open, Some(line)) => Some(opened(d, line, list)),
        _ => sitting,
    }
}

// Runs the list of standard input. One that can't be read on is told, and its session is not run.
pub(crate) fn run(rt: &HostRuntime) {
    let mut sitting = None;
    let mut list = List::new();
    let mut out = Output::new(rt.stdout(), rt.stderr());
    let mut d = Desk::new(Flags::default());
    d.run_lines(
        &mut rt.stdin(),
        b"standard input",
        &mut out,
        |d, line, out| {
            sitting = run_line(d, line, sitting, &mut list, out);
        },
    );
}
