// Lists of calls, run: from a session just opened or carried on from one that has run already.
#![tactic(auto)]

pub mod run;
