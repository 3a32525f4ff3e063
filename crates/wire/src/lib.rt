// openHPSDR Protocol 2 on the wire, as the Rust's wire.rs has it: command packets and status packets. Pure code: no sockets, no
// clock.
#![tactic(auto)]

pub mod command;
pub mod packet;
pub mod status;
