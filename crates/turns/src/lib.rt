// One call of a list, from its numbers and its own parts of the lent buffers.
#![tactic(auto)]

mod call;
pub mod turn;
