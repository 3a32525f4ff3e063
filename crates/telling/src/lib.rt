// What a program tells of a list of calls, as lines of text in a gathered output (docs/CALLS.md).
#![tactic(auto)]

pub mod answer;
mod digest;
pub mod error;
pub mod key;
pub mod radio;
pub mod state;
