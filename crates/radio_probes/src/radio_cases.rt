// The functions of the practice radio that a case can name. A row is counted from 0, in the order of the table.
use super::{command_cases, reply_cases, sample_cases, state_cases};
use casebook::answer::Answer;

// The last four are the first four, which may refuse, told otherwise.
pub const TABLE: [u8; 179] = *b"read_command 2o\n\
    iq_datagram 6o\n\
    status_packet 1o\n\
    discovery_reply 6o\n\
    read_commands 2o\n\
    commands_accepted 2o\n\
    new_radio 0o\n\
    command_left 2o\n\
    datagram_left 6o\n\
    status_left 1o\n\
    reply_left 6o";

const FIRST_LEFT: usize = 7;

fn told(row: usize, n: [u64; 6], p: &mut [u8]) -> Answer {
    match row {
        0 => command_cases::command(n, p),
        1 => sample_cases::datagram(n, p),
        2 => reply_cases::status(n[0], p),
        3 => reply_cases::reply(n, p),
        4 => command_cases::commands(n, p, false),
        5 => command_cases::commands(n, p, true),
        _ => state_cases::new(p),
    }
}

// The octets that there are then, whether it was refused or not.
fn left(a: Answer) -> Answer {
    match a {
        Answer::Octets | Answer::Refused(_) => Answer::Octets,
        _ => Answer::Nothing,
    }
}

// p is what the case gives, and is changed in place.
pub fn answer(row: usize, n: [u64; 6], p: &mut [u8]) -> Answer {
    if row < FIRST_LEFT {
        return told(row, n, p);
    }
    left(told(row - FIRST_LEFT, n, p))
}
