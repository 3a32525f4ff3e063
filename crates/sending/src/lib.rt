// Packets of a session, written one after another into a lent buffer: each stream's next packet, and those of Close. As the Rust's
// mod.rs has them, without its socket.
#![tactic(auto)]

pub mod send;
