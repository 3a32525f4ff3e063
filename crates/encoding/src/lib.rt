// Calls as numbers in lent buffers: a call is eight numbers and its own parts of the other buffers. No session is held here. Kind is
// what a call is; words has its numbers, and what it takes; check, whether a list is run; lent, what calls bring and are lent.
#![tactic(auto)]

pub mod check;
pub mod kind;
pub mod lent;
pub mod words;
