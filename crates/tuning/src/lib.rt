// What a board, a centre and a rate give, as the Rust's wire.rs has it: boards and their filter words, the phase word, the rate in
// kHz. Pure code: no sockets, no clock.
#![tactic(auto)]

pub mod alex;
pub mod board;
pub mod phase;
pub mod rate;
