// The functions of a session's parts that a case can name: the attenuator, the soft stall, discovery and the counts. A row is
// counted from 0, in the order of the table.
use super::{attenuator_cases, discovery_cases, health_cases, stall_cases};
use casebook::answer::Answer;

pub const TABLE: [u8; 199] = *b"attenuator 5o\n\
    timing_hold 0\n\
    timing_trip 0\n\
    timing_release 0\n\
    stall_due 5\n\
    stall_calls 1o\n\
    discovery_request 0o\n\
    parse_reply 0o\n\
    record_dropped 2\n\
    record_gap 1\n\
    record_malformed 1\n\
    loss_total 1\n\
    request_left 0o";

// p is what the case gives, and is changed in place.
pub fn answer(row: usize, n: [u64; 6], p: &mut [u8]) -> Answer {
    match row {
        0 => attenuator_cases::calls(n, p),
        1 => attenuator_cases::usual(0),
        2 => attenuator_cases::usual(1),
        3 => attenuator_cases::usual(2),
        4 => stall_cases::due(n),
        5 => stall_cases::calls(p),
        6 => discovery_cases::request(p),
        7 => discovery_cases::reply(p),
        8 => health_cases::dropped(n[0], n[1]),
        9 => health_cases::gap(n[0]),
        10 => health_cases::malformed(n[0]),
        11 => health_cases::loss_total(n[0]),
        _ => discovery_cases::request_left(p),
    }
}
