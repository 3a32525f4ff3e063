// A receiver, as the Rust's mod.rs has it: its read and its anchors, its queue, and how it hears a datagram. Nothing here names the
// session.
#![tactic(auto)]

pub mod hear;
pub mod queue;
pub mod read;
