// The status packet and the discovery reply, written over the octets of a case.
ghost use Rattle.std.specs.Prelude.{◌<◌};

use casebook::answer::Answer;
use discovery::{DiscoveryReply, DiscoveryStatus, ReplyAnswer};
use probes::packet_cases::of_packet;
use radio_packets::answer::WriteError;
use radio_packets::reply::discovery_reply;
use radio_packets::status::status_packet;

pub(crate) fn of_write(a: Result<(), WriteError>) -> Answer {
    match a {
        Ok(()) => Answer::Octets,
        Err(WriteError::Value) => Answer::Refused(21),
        Err(WriteError::NoRoom) => Answer::Refused(15),
    }
}

// The overload bit.
pub(crate) fn status(bit: u64, p: &mut [u8]) -> Answer {
    if bit > 1 {
        return Answer::Nothing;
    }
    of_packet(status_packet(bit == 1, p))
}

// By its octet; any but 3 is available.
fn status_of(octet: u8) -> DiscoveryStatus {
    if octet == 3 {
        return DiscoveryStatus::InUse;
    }
    DiscoveryStatus::Available
}

// By its protocol, 1 or 2, of which only 2 tells receivers; 0 is no reply.
fn reply_of(
    protocol: u64,
    status: u8,
    board: u8,
    firmware: u8,
    receivers: u8,
) -> Option<ReplyAnswer> {
    let status = status_of(status);
    match protocol {
        1 => Some(ReplyAnswer::Protocol1 {
            status,
            board,
            firmware,
        }),
        2 => Some(ReplyAnswer::Protocol2 {
            status,
            board,
            firmware,
            receivers,
        }),
        _ => None,
    }
}

// An octet of a number, by how much one in its place counts.
fn octet(v: u64, one: u64) -> u8
    requires { 0 < one }
{
    (v / one % 256) as u8
}

fn mac_of(v: u64) -> [u8; 6] {
    [
        octet(v, 1099511627776),
        octet(v, 4294967296),
        octet(v, 16777216),
        octet(v, 65536),
        octet(v, 256),
        octet(v, 1),
    ]
}

fn is_given(n: [u64; 6]) -> bool {
    let is_kind = n[0] < 3 && n[1] > 1 && n[1] < 4;
    is_kind && n[2] < 256 && n[3] < 256 && n[4] < 256 && n[5] < 281474976710656
}

// n is the protocol, the status, the board, the firmware, the receivers and the address as one number.
pub(crate) fn reply(n: [u64; 6], p: &mut [u8]) -> Answer {
    if !is_given(n) {
        return Answer::Nothing;
    }
    let answer = reply_of(
        n[0],
        octet(n[1], 1),
        octet(n[2], 1),
        octet(n[3], 1),
        octet(n[4], 1),
    );
    let mac = mac_of(n[5]);
    let reply = answer.map(|answer| DiscoveryReply { answer, mac });
    of_write(discovery_reply(reply, p))
}
