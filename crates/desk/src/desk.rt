// What the program holds between two lines, beside the session and the input.
ghost use Rattle.std.specs.Prelude.{◌≡◌, true};

use console::input::Input;
use console::output::Output;
use lines::Expected;
use tally::account::STRETCHES;
use telling::error;

// What a line asks for.
#[derive(Clone, Copy, PartialEq, Eq)]
pub enum Request {
    Nothing,
    Call,
    State,
    Radio,
    Open,
    // there is no line any more
    End,
}

// What a list is run with.
#[derive(Clone, Copy, Default)]
pub struct Flags {
    // a line for each gap
    pub gaps: bool,
    // the number of its line before each answer
    pub numbered: bool,
    // the program ends with the status, and not with 0
    pub status: bool,
}

// Whether a list goes on.
#[derive(Clone, Copy, Debug, PartialEq, Eq)]
pub enum Course {
    On,
    // there are no more lines, or there is no room for what they ask for
    Over,
    // a line could not be read, or not be run
    Wrong,
}

#[derive(Clone, Copy)]
pub struct Desk {
    // the line's number, and what it asks for
    pub line: u64,
    pub asks: Request,
    pub course: Course,
    pub flags: Flags,
}

impl Desk {
    pub fn new(flags: Flags) -> Desk {
        Desk {
            line: 0,
            asks: Request::Nothing,
            course: Course::On,
            flags,
        }
    }

    // A line that can't be read, or not be run: nothing after it is run.
    pub fn stop(&mut self, e: Expected, line: &[u8], out: &mut Output)
        ensures { self.new.asks ≡ Request.Nothing }
    {
        error::tell(out, self.line, e, line, STRETCHES + 1);
        self.asks = Request::Nothing;
        self.course = Course::Wrong;
    }

    // Whether the list goes on.
    pub fn goes_on(&self, input: &Input, out: &Output) -> bool
        ensures { result ≡ true → self.now.course ≡ Course.On }
    {
        self.course == Course::On && input.fault().is_none() && !out.has_failed()
    }

    // The line's number, before an answer, where it is asked for.
    pub fn put_number(&self, out: &mut Output) {
        if self.flags.numbered {
            out.filled(b"#: ", &[self.line]);
        }
    }
}
