// A line of a list of calls, read (docs/CALLS.md). What can't be read gives what was expected.
#![tactic(auto)]

ghost use Rattle.std.specs.Prelude.{◌≡◌};
ghost use Rattle.text.specs.Part.{StandsIn};
ghost use Rattle.lines.specs.Call.{Lent};
ghost use Rattle.lines.specs.Open.{opening_of, radio_of};
ghost use Rattle.lines.specs.Found.{found_in, first_in};

use encoding::lent::Asked;
use model::settings::Settings;

mod argument;
mod call;
pub mod key;
mod name;
mod open;
mod option;
mod stops;

// The most octets of a line: a longer one is not read.
pub const LONGEST: usize = 100000;

// What was expected, as CALLS.md's Errors has it. Open and FewerStretches are for whoever runs the calls.
#[derive(Clone, Copy, Debug, PartialEq, Eq)]
pub enum Expected {
    Call,
    Open,
    Setting,
    // a value of a key, by its place in key::KEYS
    ValueOf(u8),
    Reading,
    DatagramNumber,
    Octet,
    Sender,
    Octets,
    Places,
    End,
    ShorterLine,
    FewerStretches,
}

// What a line is that can be read. Nothing has no words.
#[derive(Clone, Copy, Debug, PartialEq, Eq)]
pub enum Read {
    Nothing,
    Open,
    Call,
    State,
    Radio,
}

// Where the radio of a session is.
#[derive(Clone, Copy, Debug, PartialEq, Eq, Default)]
pub struct Endpoint {
    // an IPv4 address, its first octet the highest
    pub ip: u32,
    pub port: u16,
}

// Reads a line of a session whose radio is there, or tells what was expected where it can't be read. A call's eight numbers are those
// of specs/Call; its datagram and its waiting numbers go to the front of their rooms. After any answer but a call the eight numbers are as they were, and the octets and the waiting numbers hold what was written before the reading stopped. Of an
// `open` nothing but its name is looked at.
pub fn read_call(line: &[u8], radio: Endpoint, asked: &mut Asked) -> Result<Read, Expected>
    ensures { Lent line.now radio asked.old result asked.new }
{
    call::read_line(line, radio, asked)
}

// What an `open` asks for. One that can't be read has the settings of an `open` that says none.
#[derive(Clone, Copy)]
pub struct Opening {
    pub read: Result<(), Expected>,
    // the opening reading
    pub at: u64,
    pub settings: Settings,
}

impl Opening {
    // Where the radio is.
    pub fn radio(self) -> Endpoint
        ensures { result ≡ radio_of self.settings }
    {
        Endpoint {
            ip: self.settings.radio_ip,
            port: self.settings.port,
        }
    }
}

// Reads a line whose first word is `open`; another is told to be none.
pub fn read_open(line: &[u8]) -> Opening
    ensures { result ≡ opening_of line.now }
{
    open::read_settings(line)
}

// The word of a line that can't be read, for whoever tells of it. It is empty if the line ends there, or can be read.
pub fn found(line: &[u8]) -> &[u8]
    ensures word { result.now ≡ found_in line.now }
    ensures stands { StandsIn line.now result.now }
{
    stops::found_in(line)
}

// The first word of a line, which names its call. It is empty if the line has no words.
pub fn first_word(line: &[u8]) -> &[u8]
    ensures word { result.now ≡ first_in line.now }
    ensures stands { StandsIn line.now result.now }
{
    stops::first_in(line)
}
