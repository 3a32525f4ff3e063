// What a word of a line spells: a number, a reading, a double, an address, octets, a list of numbers; and the datagrams that a line
// stands for (docs/CALLS.md).
#![tactic(auto)]

pub mod address;
pub mod datagram;
pub mod hexadecimal;
pub mod reading;
pub mod waiting;
