// A session with its account beside it: opened, and called, so that the account is that of the calls which were run.
#![tactic(auto)]

pub mod sitting;
