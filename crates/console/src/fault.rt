// What failed, as a line on standard error: a name, a colon, and the system's words for it.
ghost use Rattle.std.specs.Prelude.{◌≤◌};

use std::io::{Error, Stderr, Write};
use text::find;

const WORDS: usize = 256;

// A line on standard error; one that can't be told is let go.
pub fn told(to: &mut Stderr, line: &[u8]) {
    let _ = to.write_all(line);
}

// The system's words for an error go to the front of the lent room; how many octets they are. The number of the error, in parentheses
// behind them, is left out.
fn words(error: Error, room: &mut [u8; WORDS]) -> usize
    ensures { result ≤ 256 }
{
    let mut rest = &mut room[..];
    let _ = write!(rest, "{error}");
    let end = find(room, 0);
    if error.raw_os_error().is_none() {
        return end;
    }
    match find(&room[..end], b'(') {
        0 => end,
        number => number - 1,
    }
}

// A name, and why what has it failed.
pub fn fail(to: &mut Stderr, name: &[u8], error: Error) {
    let mut room = [0u8; WORDS];
    let n = words(error, &mut room);
    told(to, name);
    told(to, b": ");
    told(to, &room[..n]);
    told(to, b"\n");
}
