// The program's arguments: `[--gaps] [--numbered] [--status] [FILE]`. The script `waluntig` is what people run; with `--status` the
// program ends with its status, and else with 0.
use console::fault::{fail, told};
use desk::desk::Flags;
use std::env::FillError;
use std::io::{Error, ErrorKind};
use std::rt::Env;

// Room for an argument: the longest name that the system opens has an octet less.
pub(crate) const NAME: usize = 4096;

// The system's numbers of two errors.
const ENAMETOOLONG: i32 = 36;

const EINVAL: i32 = 22;

// Where the list is.
#[derive(Clone, Copy)]
pub(crate) enum List {
    Input,
    // in the file that this argument names
    File(usize),
    // more than one is named
    Many,
}

#[derive(Clone, Copy)]
pub(crate) struct Arguments {
    pub(crate) flags: Flags,
    pub(crate) list: List,
}

#[derive(Clone, Copy)]
enum Flag {
    Gaps,
    Numbered,
    Status,
}

fn flag_of(word: &[u8]) -> Option<Flag> {
    match word {
        b"--gaps" => Some(Flag::Gaps),
        b"--numbered" => Some(Flag::Numbered),
        b"--status" => Some(Flag::Status),
        _ => None,
    }
}

// One that is longer than the room is no flag.
fn flag_at(rt: &HostRuntime, i: usize) -> Option<Flag> {
    let mut room = [0u8; NAME];
    match rt.arg(i, &mut room) {
        Ok(n) => flag_of(&room[..n]),
        Err(_) => None,
    }
}

fn is_there(rt: &HostRuntime, i: usize) -> bool {
    let mut room = [0u8; NAME];
    !matches!(rt.arg(i, &mut room), Err(FillError::NotPresent))
}

// How many there are, the program's own name among them.
fn count(rt: &HostRuntime) -> usize {
    for i in 0..usize::MAX {
        if !is_there(rt, i) {
            return i;
        }
    }
    usize::MAX
}

pub(crate) fn read(rt: &HostRuntime) -> Arguments {
    let end = count(rt);
    let mut flags = Flags::default();
    for i in 1..end {
        match flag_at(rt, i) {
            Some(Flag::Gaps) => flags.gaps = true,
            Some(Flag::Numbered) => flags.numbered = true,
            Some(Flag::Status) => flags.status = true,
            None => {
                let list = if end - i > 1 {
                    List::Many
                } else {
                    List::File(i)
                };
                return Arguments { flags, list };
            }
        }
    }
    Arguments {
        flags,
        list: List::Input,
    }
}

fn no_name(rt: &HostRuntime, error: i32) {
    fail(
        &mut rt.stderr(),
        b"the file's name",
        Error::from_raw_os_error(error),
    )
}

// The file's name, in the lent room. One that is too long, or empty, is told as what it is.
pub(crate) fn file_name<'a>(
    rt: &HostRuntime,
    i: usize,
    room: &'a mut [u8; NAME],
) -> Option<&'a [u8]> {
    match rt.arg(i, room) {
        Ok(0) => told(&mut rt.stderr(), b"the file's name is empty\n"),
        Ok(n) => return Some(&room[..n]),
        Err(FillError::TooLong) => no_name(rt, ENAMETOOLONG),
        Err(FillError::NotPresent) => no_name(rt, EINVAL),
    }
    None
}

// Why a file whose name is no text is not opened.
pub(crate) fn not_text() -> Error {
    Error::new(ErrorKind::InvalidInput, "The file's name is not UTF-8")
}

pub(crate) fn one_list_at_a_time(rt: &HostRuntime) {
    told(
        &mut rt.stderr(),
        b"calls: one list at a time, after the flags\n",
    )
}
