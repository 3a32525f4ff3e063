// The discovery request, written to the octets of a case, and what they say as a reply.
use casebook::answer::Answer;
use discovery::{DiscoveryStatus, ReplyAnswer, discovery_request_p2, parse_reply};
use probes::packet_cases::of_packet;

// Five fields and the address.
const TOLD: usize = 11;

pub fn request(p: &mut [u8]) -> Answer {
    of_packet(discovery_request_p2(p))
}

// What the octets are after the request was to be written, whether it was or not.
pub fn request_left(p: &mut [u8]) -> Answer {
    let _ = discovery_request_p2(p);
    Answer::Octets
}

fn of_status(s: DiscoveryStatus) -> u8 {
    match s {
        DiscoveryStatus::Available => 2,
        DiscoveryStatus::InUse => 3,
    }
}

fn octets_of(
    protocol: u8,
    status: u8,
    board: u8,
    firmware: u8,
    receivers: u8,
    mac: [u8; 6],
) -> [u8; TOLD] {
    [
        protocol, status, board, firmware, receivers, mac[0], mac[1], mac[2], mac[3], mac[4],
        mac[5],
    ]
}

fn put(told: [u8; TOLD], p: &mut [u8]) -> Answer {
    if p.len() < TOLD {
        return Answer::Nothing;
    }
    p[..TOLD].copy_from_slice(&told);
    Answer::Octets
}

// Protocol 1 tells no receivers.
pub fn reply(p: &mut [u8]) -> Answer {
    let Some(r) = parse_reply(p) else {
        return Answer::Refused(18);
    };
    match r.answer {
        ReplyAnswer::Protocol1 {
            status,
            board,
            firmware,
        } => put(
            octets_of(1, of_status(status), board, firmware, 0, r.mac),
            p,
        ),
        ReplyAnswer::Protocol2 {
            status,
            board,
            firmware,
            receivers,
        } => put(
            octets_of(2, of_status(status), board, firmware, receivers, r.mac),
            p,
        ),
    }
}
