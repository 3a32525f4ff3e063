// What a practice radio sends: I/Q datagrams, status packets and discovery replies. Each is the least, octet by octet, that the host
// reads as what the caller gave.
#![tactic(auto)]

pub mod answer;
pub mod datagram;
pub mod reply;
pub mod status;
