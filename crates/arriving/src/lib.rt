// Arrival: a datagram is routed by its sender and its octets, and heard, answered as a status packet, ignored or counted as
// malformed. What it gives is model's definition of it.
#![tactic(auto)]

pub mod arrival;
mod malformed;
mod route;
mod status;
