// The lines of a file. A read that fails is no end of them.
ghost use Rattle.std.specs.Prelude.{◌≤◌, ◌≡◌, true, false, None, slice_range};

use super::output::Output;
use std::io::{Error, ErrorKind, Read};
use text::find;

// A line and its newline have room for so many octets.
pub const ROOM: usize = 131072;

// What is known of a file. What was read of it and is no line yet lies in a room that the caller lends.
#[derive(Clone, Copy)]
pub struct Input {
    // from here on, up to there
    next: usize,
    filled: usize,
    // the file has no more
    over: bool,
    // why it can't be read on: what comes next is not known
    failed: Option<Error>,
    pub ghost rises: { next ≤ filled },
    pub ghost ends: { filled ≤ 131072 },
}

// What comes next of a file.
#[derive(Clone, Copy)]
pub enum Next<'a> {
    // a line, without its newline
    Line(&'a [u8]),
    // the front of one that is longer than the room: what follows is still of it
    TooLong(&'a [u8]),
    // it is to be read on before the next line is known
    Cut,
    // no line any more
    Over,
}

impl Input {
    ghost use Rattle.console.specs.Input.{Comes, Filled};
    ghost use Rattle.console.specs.Output.{Flushed};

    // That of a file of which nothing is read.
    pub fn new() -> Input
        ensures filled { result.filled ≡ 0 }
        ensures over { result.over ≡ false }
        ensures failed { result.failed ≡ None }
    {
        Input {
            next: 0,
            filled: 0,
            over: false,
            failed: None,
        }
    }

    // Why it can't be read on.
    pub fn fault(&self) -> Option<Error>
        ensures { result ≡ self.now.failed }
    {
        self.failed
    }

    // The next line of what was read, which is taken.
    pub fn next<'a>(&mut self, room: &'a [u8; ROOM]) -> Next<'a>
        ensures { Comes (slice_range room.now self.old.next self.old.filled) self.old result self.new }
    {
        let rest = &room[self.next..self.filled];
        let n = find(rest, b'\n');
        if n < rest.len() {
            self.next += n + 1;
            return Next::Line(&rest[..n]);
        }
        if n == ROOM {
            self.next = self.filled;
            return Next::TooLong(rest);
        }
        if !self.over {
            return Next::Cut;
        }
        if n == 0 {
            return Next::Over;
        }
        self.next = self.filled;
        Next::Line(rest)
    }

    // What is no line yet goes to the front, and more is read behind it. A room that is full stays as it is: a read of no octets would
    // look like the file's end. A read that a signal interrupts gave nothing, and is tried again.
    pub fn fill<R: Read>(&mut self, from: &mut R, room: &mut [u8; ROOM])
        ensures { Filled self.old room.old self.new room.new }
    {
        room.copy_within(self.next..self.filled, 0);
        self.filled -= self.next;
        self.next = 0;
        self.over = false;
        self.failed = None;
        if self.filled == ROOM {
            return;
        }
        match from.read(&mut room[self.filled..]) {
            Ok(count) => {
                self.filled += count;
                self.over = count == 0;
            }
            Err(error) => {
                if error.kind() != ErrorKind::Interrupted {
                    self.failed = Some(error);
                }
            }
        }
    }

    // Reads on. A read may wait: what is answered is written first, so that whoever writes the file has its answers. Nothing is read where
    // that fails.
    pub fn read_on<R: Read>(&mut self, from: &mut R, room: &mut [u8; ROOM], out: &mut Output)
        ensures flushed { Flushed out.old out.new }
        ensures kept { out.new.room ≡ out.old.room }
        ensures stays { out.new.failed ≡ true → (self.new ≡ self.old) × (room.new ≡ room.old) }
        ensures reads { out.new.failed ≡ false → Filled self.old room.old self.new room.new }
    {
        out.flush();
        if !out.has_failed() {
            self.fill(from, room);
        }
    }
}
