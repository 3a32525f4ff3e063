// The packets that a call of a session listed, which stand one behind the other in its buffer: each is read as its stream's.
ghost use Rattle.std.specs.Prelude.{◌≡◌, ◌+◌, ◌≤◌, min};
ghost use Rattle.radio.specs.Answer.{command_answer};
ghost use Rattle.radio.specs.Listen.{stream_at, cut, is_accepted, received_of, received};

use super::answer::CommandError;
use super::command::read_command;
use super::state::Radio;
use wire::command::Stream;

// The radio after the packets, and how many of them it accepted.
#[derive(Clone, Copy)]
pub struct Received {
    pub radio: Radio,
    pub accepted: usize,
}

pub fn stream_at(offset: u8) -> Option<Stream>
    ensures { result ≡ stream_at offset }
{
    match offset {
        0 => Some(Stream::General),
        1 => Some(Stream::RxSpecific),
        2 => Some(Stream::TxSpecific),
        3 => Some(Stream::HighPriority),
        _ => None,
    }
}

// 1 of a packet that was accepted, 0 of any other.
fn count(answer: Result<(), CommandError>) -> usize
    ensures { result ≡ is_accepted (command_answer answer) }
{
    match answer {
        Ok(()) => 1,
        Err(_) => 0,
    }
}

// Where a packet ends that begins at a place of a buffer, or the buffer's end.
fn end_of(at: usize, size: usize, all: usize) -> usize
    requires { at ≤ all }
    ensures { result ≡ min (at + size) all }
{
    if size < all - at {
        return at + size;
    }
    all
}

// The packets of these streams, given as offsets from the port, from the front of the buffer on. An offset that is no stream's ends
// them; what is not there of the last packet is missing from it, so that it is refused by its length.
pub fn read_commands(radio: Radio, offsets: &[u8], packets: &[u8]) -> Received
    ensures { result ≡ received_of radio (received radio (cut offsets.now packets.now)) }
{
    let mut next = radio;
    let mut accepted = 0;
    let mut at = 0;
    for offset in offsets {
        let Some(stream) = stream_at(*offset) else {
            return Received {
                radio: next,
                accepted,
            };
        };
        let end = end_of(at, stream.packet_len(), packets.len());
        let heard = read_command(next, stream, &packets[at..end]);
        accepted += count(heard.answer);
        next = heard.radio;
        at = end;
    }
    Received {
        radio: next,
        accepted,
    }
}
