// What an arrival misses, as the Rust's mod.rs has it: elapsed time, the walk over waiting numbers, the park window, the two slots,
// and the report of an event. Nothing here names the session.
#![tactic(auto)]

pub mod elapsed;
pub mod pending;
pub mod report;
pub mod window;
