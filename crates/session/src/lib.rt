// A session's calls but Open, Pass and Arrival: each changes the session that it is lent, beside samples and packets, and returns the
// answer. What each gives is model's definition of it. As the Rust's mod.rs has them: no sockets, no clock.
#![tactic(auto)]

pub mod begin;
pub mod close;
pub mod drain;
pub mod readers;
pub mod take;
