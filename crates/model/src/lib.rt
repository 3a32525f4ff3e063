// What every call gives: the types of a session, its settings, its calls and their answers, with each call's definition in specs/.
// The calls as code are the crates above; that their account agrees with the radio's stream is the crate account's.
#![tactic(auto)]

pub mod answer;
pub mod command;
pub mod incoming;
pub mod receiver;
pub mod sender;
pub mod session;
pub mod settings;
