// The lines of a list, each read, run and answered in turn.
ghost use Rattle.holding.specs.Held.{Holds};

use super::practice::{listened, untold};
use super::sessions::{Rooms, account_of, after, answered, radio_of, told};
use console::output::Output;
use desk::desk::{Course, Desk, Flags};
use std::io::Read;
use telling::error;

// What became of a list. The program's status is its number.
#[derive(Clone, Copy)]
pub(crate) enum Status {
    Fine = 0,
    // a line could not be read, or not be run
    Wrong = 1,
    // the file, the input or the output failed, or the use was wrong
    Failed = 2,
}

fn run_lines<R: Read>(
    from: &mut R,
    name: &[u8],
    flags: Flags,
    rooms: &mut Rooms,
    out: &mut Output,
) -> Status {
    let mut held = None;
    let mut p = untold();
    let mut d = Desk::new(flags);
    let is_whole = d.run_lines(
        from,
        name,
        out,
        |d, line, out|
            requires { Holds held rooms.now.samples rooms.now.table }
            ensures { Holds held.exit rooms.exit.now.samples rooms.exit.now.table }
        {
            d.read(line, radio_of(held), &mut rooms.asked, out);
            told(held, p, d, &rooms.table, out);
            let before = account_of(held);
            let came = after(&mut held, d.asks, line, rooms);
            p = listened(p, d.asks, &rooms.given);
            answered(came, before, d, rooms, out);
        },
    );
    match d.course {
        _ if !is_whole => Status::Failed,
        Course::Wrong => Status::Wrong,
        Course::On | Course::Over => Status::Fine,
    }
}

// Runs the list that is read, whose name is told where it can't be read.
pub(crate) fn run<R: Read>(rt: &HostRuntime, from: &mut R, name: &[u8], flags: Flags) -> Status {
    let mut rooms = Rooms::new();
    let mut out = Output::new(rt.stdout(), rt.stderr());
    run_lines(from, name, flags, &mut rooms, &mut out)
}

// A list that there is no file of: nothing of it is run.
pub(crate) fn no_list(rt: &HostRuntime) -> Status {
    let mut out = Output::new(rt.stdout(), rt.stderr());
    error::unread(&mut out, 1);
    out.finish();
    Status::Failed
}
