// A practice radio, to rehearse without a set: it reads the host's command packets and keeps what they set. state has what it keeps,
// command reads a packet, listen those of a call. What such a radio sends is written by radio_packets.
#![tactic(auto)]

pub mod answer;
pub mod command;
pub mod listen;
pub mod state;
