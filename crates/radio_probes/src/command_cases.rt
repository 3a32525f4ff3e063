// Command packets, read by a radio. A case's octets are the radio, and behind it the octets of the packets that are not 0.
ghost use Rattle.std.specs.Prelude.{◌≤◌, length};

use super::state_cases::{RADIO, put_radio, radio};
use casebook::answer::Answer;
use radio::answer::CommandError;
use radio::command::read_command;
use radio::listen::{Received, read_commands, stream_at};
use wire::command::Stream;

// Room for the packets of a case: one of each stream is 3008 octets.
const ROOM: usize = 4096;

// An octet that is not 0 stands as three: its place, big-endian, and its value.
const PLACED: usize = 3;

// Puts them into packets of zeros. False where a place is past the packets, or the last is cut.
fn put_placed(p: &[u8], from: usize, packets: &mut [u8]) -> bool
    requires { from ≤ length p.now }
{
    for placed in p[from..].chunks(PLACED) {
        if placed.len() < PLACED {
            return false;
        }
        let place = octets::get_u16(placed, 0) as usize;
        if place >= packets.len() {
            return false;
        }
        packets[place] = placed[2];
    }
    true
}

fn of_command(a: Result<(), CommandError>) -> Answer {
    match a {
        Ok(()) => Answer::Octets,
        Err(CommandError::Length) => Answer::Refused(20),
        Err(CommandError::Value) => Answer::Refused(21),
    }
}

// The radio in p becomes the radio after the packet, whether it is accepted or not.
fn heard(stream: Stream, p: &mut [u8], packet: &mut [u8]) -> Answer
    requires { 38 ≤ length p.old }
{
    if !put_placed(p, RADIO, packet) {
        return Answer::Nothing;
    }
    let heard = read_command(radio(p), stream, packet);
    let answer = heard.answer;
    put_radio(p, heard.radio);
    of_command(answer)
}

// n is the stream by its offset, and the packet's length.
pub(crate) fn command(n: [u64; 6], p: &mut [u8]) -> Answer {
    if n[0] > 255 {
        return Answer::Nothing;
    }
    if n[1] > 4096 {
        return Answer::Nothing;
    }
    if p.len() < RADIO {
        return Answer::Nothing;
    }
    let Some(stream) = stream_at(n[0] as u8) else {
        return Answer::Absent;
    };
    let end = n[1] as usize;
    let mut room = [0u8; ROOM];
    heard(stream, p, &mut room[0..end])
}

// The offsets stand behind the radio, an octet each, up to `behind`.
fn received(p: &[u8], behind: usize, packets: &[u8]) -> Received
    requires { (38 ≤ behind) × (behind ≤ length p.now) }
{
    read_commands(radio(p), &p[RADIO..behind], packets)
}

fn listened(p: &mut [u8], behind: usize, packets: &mut [u8], is_counted: bool) -> Answer
    requires { (38 ≤ behind) × (behind ≤ length p.old) }
{
    if !put_placed(p, behind, packets) {
        return Answer::Nothing;
    }
    let r = received(p, behind, packets);
    put_radio(p, r.radio);
    if is_counted {
        return Answer::Number(r.accepted as u64);
    }
    Answer::Octets
}

// n is how many offsets there are, and the length of the packets. The answer is the radio after them, or how many it accepted.
pub(crate) fn commands(n: [u64; 6], p: &mut [u8], is_counted: bool) -> Answer {
    if n[0] > 255 {
        return Answer::Nothing;
    }
    if n[1] > 4096 {
        return Answer::Nothing;
    }
    let behind = RADIO + n[0] as usize;
    if p.len() < behind {
        return Answer::Nothing;
    }
    let end = n[1] as usize;
    let mut room = [0u8; ROOM];
    listened(p, behind, &mut room[0..end], is_counted)
}
