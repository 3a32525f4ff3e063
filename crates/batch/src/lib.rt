// The calls of a session, gathered to be run at once: list adds one, replies and accounts tell what they were answered.
#![tactic(auto)]

pub mod accounts;
pub mod list;
pub mod replies;
