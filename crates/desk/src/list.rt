// The lines of a list, one after another.
ghost use Rattle.std.specs.Prelude.{◌≡◌, true, false};

use super::desk::Desk;
use console::input::{Input, Next, ROOM};
use console::output::Output;
use std::io::{Error, Read};
use telling::error;

impl Desk {
    // What is still to be written goes out. An input that can't be read on is told by its name: that is no end of the list.
    fn end(&self, fault: Option<Error>, name: &[u8], out: &mut Output) -> bool
        ensures { result ≡ true → out.new.failed ≡ false }
    {
        if let Some(error) = fault {
            out.tell_fault(name, error);
            error::unread(out, self.line.wrapping_add(1));
        }
        out.finish() && fault.is_none()
    }

    // Runs each line of the input of this name, and then once that there is none any more, until the list is over. Whether the input
    // could be read so far, and all that was answered be written. A proved loop has to end, and nothing says that an input does: it
    // has more turns than any run takes.
    pub fn run_lines<R: Read, F: FnMut(&mut Desk, Option<&[u8]>, &mut Output)>(
        &mut self,
        from: &mut R,
        name: &[u8],
        out: &mut Output,
        mut run: F,
    ) -> bool
        requires { F.IsAlwaysCallable run }
        ensures { result ≡ true → out.new.failed ≡ false }
    {
        let mut text = [0u8; ROOM];
        let mut input = Input::new();
        for _ in 0..u64::MAX {
            if !self.goes_on(&input, out) {
                break;
            }
            let line = match input.next(&text) {
                Next::Line(line) | Next::TooLong(line) => Some(line),
                Next::Over => None,
                Next::Cut => {
                    input.read_on(from, &mut text, out);
                    continue;
                }
            };
            run(self, line, out);
        }
        self.end(input.fault(), name, out)
    }
}
