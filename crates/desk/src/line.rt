// A line, read: what it asks for. A call goes to the lent buffers.
ghost use Rattle.std.specs.Prelude.{◌≡◌, ◌≢◌, ◌⊎◌, true, is_some};
ghost use Rattle.desk.specs.Asked.{Asks};

use super::desk::{Desk, Request};
use console::output::Output;
use encoding::lent::Asked;
use lines::{Endpoint, Expected, Read, read_call, read_open};

impl Desk {
    // An `open`. Whether there is a session then is for whoever opens it to say.
    pub fn read_open(&mut self, line: &[u8], out: &mut Output)
        ensures { self.new.asks ≢ Request.Call }
    {
        if let Err(e) = read_open(line).read {
            return self.stop(e, line, out);
        }
        self.asks = Request::Open;
    }

    // What a session answers, whose radio is there: there has to be one.
    fn ask_session(&mut self, asks: Request, radio: Option<Endpoint>, line: &[u8], out: &mut Output)
        ensures { (self.new.asks ≡ Request.Nothing) ⊎ (self.new.asks ≡ asks) × (is_some radio ≡ true) }
    {
        if radio.is_none() {
            return self.stop(Expected::Open, line, out);
        }
        self.asks = asks;
    }

    // Without a session a line is read as of any radio: what it is, or what was expected in it, is the same of all.
    fn read_line(
        &mut self,
        line: &[u8],
        radio: Option<Endpoint>,
        asked: &mut Asked,
        out: &mut Output,
    )
        ensures { Asks self.new.asks (is_some radio) asked.new.call }
    {
        match read_call(line, radio.unwrap_or_default(), asked) {
            Ok(Read::Nothing) => self.asks = Request::Nothing,
            Ok(Read::Open) => self.read_open(line, out),
            Ok(Read::Call) => self.ask_session(Request::Call, radio, line, out),
            Ok(Read::State) => self.ask_session(Request::State, radio, line, out),
            Ok(Read::Radio) => self.ask_session(Request::Radio, radio, line, out),
            Err(e) => self.stop(e, line, out),
        }
    }

    // The line in hand, counted, of a session whose radio is there, if there is a session. Where there is no line the list ends.
    pub fn read(
        &mut self,
        line: Option<&[u8]>,
        radio: Option<Endpoint>,
        asked: &mut Asked,
        out: &mut Output,
    )
        ensures { Asks self.new.asks (is_some radio) asked.new.call }
    {
        match line {
            Some(line) => {
                self.line = self.line.wrapping_add(1);
                self.read_line(line, radio, asked, out)
            }
            None => self.asks = Request::End,
        }
    }
}
