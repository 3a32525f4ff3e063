// The key that is marked by, answer by answer: what a call's answer adds to the account of its session.
#![tactic(auto)]

pub mod note;
