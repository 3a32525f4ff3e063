// Reads lists of calls as text (docs/CALLS.md) from standard input, or from the file that its argument names, and writes an answer a
// line and each session's account.
#![tactic(auto)]

mod arguments;
mod practice;
mod run;
mod sessions;

use arguments::{Arguments, List, NAME, not_text};
use console::fault::fail;
use desk::desk::Flags;
use run::Status;
use std::fs::File;
use std::process::ExitCode;

// A file by its name, which is opened to be read. A name is text, since std opens no other.
fn run_opened(rt: &HostRuntime, name: &[u8], flags: Flags) -> Status {
    let Ok(text) = str::from_utf8(name) else {
        fail(&mut rt.stderr(), name, not_text());
        return run::no_list(rt);
    };
    match File::open(rt, text) {
        Ok(mut file) => run::run(rt, &mut file, name, flags),
        Err(error) => {
            fail(&mut rt.stderr(), name, error);
            run::no_list(rt)
        }
    }
}

fn run_input(rt: &HostRuntime, flags: Flags) -> Status {
    run::run(rt, &mut rt.stdin(), b"standard input", flags)
}

// The file that argument i names; `-` is standard input.
fn run_named(rt: &HostRuntime, i: usize, flags: Flags) -> Status {
    let mut room = [0u8; NAME];
    match arguments::file_name(rt, i, &mut room) {
        Some(b"-") => run_input(rt, flags),
        Some(name) => run_opened(rt, name, flags),
        None => run::no_list(rt),
    }
}

fn run_asked(rt: &HostRuntime, a: Arguments) -> Status {
    match a.list {
        List::Input => run_input(rt, a.flags),
        List::File(i) => run_named(rt, i, a.flags),
        List::Many => {
            arguments::one_list_at_a_time(rt);
            Status::Failed
        }
    }
}

// Without `--status` it is 0, whatever became of the list.
fn main(rt: HostRuntime) -> ExitCode {
    let a = arguments::read(&rt);
    let status = run_asked(&rt, a);
    if a.flags.status {
        return ExitCode::from(status as u8);
    }
    ExitCode::SUCCESS
}
