// The functions of the practice radio that a case can name: what it reads, and what it writes.
#![tactic(auto)]

mod command_cases;
pub mod radio_cases;
mod reply_cases;
mod sample_cases;
mod state_cases;
