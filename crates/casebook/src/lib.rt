// A case as text: its words, the tables of functions that it may name, and whether an answer is what it expects.
#![tactic(auto)]

pub mod answer;
pub mod case;
pub mod report;
pub mod table;
pub mod words;
