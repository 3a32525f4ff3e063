// A program's input, line by line, and its output, gathered. What fails is told: an input that can't be read on is not at its end.
#![tactic(auto)]

pub mod fault;
pub mod input;
pub mod output;
pub mod pattern;
