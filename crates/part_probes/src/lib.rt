// The functions of a session's parts that a case can name: attenuator, stall, discovery, counts, and what an arrival misses.
#![tactic(auto)]

pub mod attenuator_cases;
pub mod discovery_cases;
pub mod health_cases;
pub mod part_cases;
pub mod receiving_cases;
pub mod report_cases;
pub mod stall_cases;
