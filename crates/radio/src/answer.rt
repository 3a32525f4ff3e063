// What the radio answers. 02's number of each case: specs/Answer.
use super::state::Radio;

// Why a command packet is refused.
#[derive(Clone, Copy)]
pub enum CommandError {
    // not as long as the stream's packets are
    Length,
    // an octet that is fixed has another value, or a field has one that it can't have
    Value,
}

// The answer to a command packet, and the radio after it.
#[derive(Clone, Copy)]
pub struct Heard {
    pub answer: Result<(), CommandError>,
    pub radio: Radio,
}
