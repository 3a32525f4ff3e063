// What the program writes, gathered in a buffer and written out where it is full. A write that fails is told once, and nothing is
// written after it.
ghost use Rattle.std.specs.Prelude.{◌≤◌, ◌≡◌, replicate, false, not};

use super::fault::fail;
use std::io::{Error, Stderr, Stdout, Write};

pub const ROOM: usize = 65536;

// The buffer, where it is written to, and where it is told that a write failed.
#[derive(Drop)]
pub struct Output {
    room: [u8; ROOM],
    // so many of the room's octets are still to be written
    len: usize,
    // a write failed, and they stay unwritten: the count holds then too, so that this is no Option of it
    failed: bool,
    to: Stdout,
    faults: Stderr,
    pub ghost within: { len ≤ 65536 },
}

fn write_front(to: &mut Stdout, room: &[u8; ROOM], len: usize) -> Result<(), Error>
    requires { len ≤ 65536 }
{
    to.write_all(&room[..len])
}

impl Output {
    ghost use Rattle.console.specs.Output.{Flushed, Puts, PutsNumber};

    // Nothing is gathered.
    pub fn new(to: Stdout, faults: Stderr) -> Output
        ensures room { result.room ≡ replicate 65536 0 }
        ensures len { result.len ≡ 0 }
        ensures failed { result.failed ≡ false }
    {
        Output {
            room: [0u8; ROOM],
            len: 0,
            failed: false,
            to,
            faults,
        }
    }

    // Whether a write failed.
    pub fn has_failed(&self) -> bool
        ensures { result ≡ self.now.failed }
    {
        self.failed
    }

    // A name, and why what has it failed, on standard error.
    pub fn tell_fault(&mut self, name: &[u8], error: Error)
        ensures room { self.new.room ≡ self.old.room }
        ensures len { self.new.len ≡ self.old.len }
        ensures failed { self.new.failed ≡ self.old.failed }
    {
        fail(&mut self.faults, name, error)
    }

    // Writes what is still to be written.
    pub fn flush(&mut self)
        ensures flushed { Flushed self.old self.new }
        ensures kept { self.new.room ≡ self.old.room }
    {
        if self.failed {
            return;
        }
        match write_front(&mut self.to, &self.room, self.len) {
            Ok(()) => self.len = 0,
            Err(error) => {
                self.failed = true;
                self.tell_fault(b"standard output", error);
            }
        }
    }

    // Writes what is still to be written, as the last; whether all is written.
    pub fn finish(&mut self) -> bool
        ensures flushed { Flushed self.old self.new }
        ensures written { result ≡ not self.new.failed }
        ensures kept { self.new.room ≡ self.old.room }
    {
        self.flush();
        !self.failed
    }

    // Puts s behind what is still to be written.
    pub fn put(&mut self, s: &[u8])
        ensures { Puts self.old s.now self.new }
    {
        if s.len() > ROOM || self.failed {
            return;
        }
        if self.len > ROOM - s.len() {
            self.flush();
            if self.failed {
                return;
            }
        }
        let end = self.len + s.len();
        self.room[self.len..end].copy_from_slice(s);
        self.len = end;
    }

    // A number in decimal.
    pub fn number(&mut self, n: u64)
        ensures { PutsNumber self.old n self.new }
    {
        let mut text = [0u8; 20];
        let k = io::decimal(n, &mut text);
        self.put(&text[..k])
    }

    // A word, and a number behind it.
    pub fn named(&mut self, name: &[u8], n: u64) {
        self.put(name);
        self.number(n)
    }

    // So many digits in hexadecimal, and a word before them.
    pub fn named_hex(&mut self, name: &[u8], n: u64, digits: usize) {
        let mut text = [0u8; 16];
        let k = io::hex(n, digits, &mut text);
        self.put(name);
        self.put(&text[..k])
    }

    // Yes or no.
    pub fn yes(&mut self, b: bool) {
        self.put(if b { b"yes" } else { b"no" })
    }
}
