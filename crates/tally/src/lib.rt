// The account of a stream: its stretches, arrival by arrival, as they are told. Record is what is kept of an arrival; Stretch what
// is told of a stretch; account gathers stretches in a lent table; rows has all that is told of a session, as numbers.
#![tactic(auto)]

pub mod account;
pub mod record;
pub mod rows;
pub mod stretch;
