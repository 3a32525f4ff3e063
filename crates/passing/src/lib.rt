// Pass: Ready where samples wait, a stall, or the packets that are due. What it gives is model's definition of it.
#![tactic(auto)]

pub mod pass;
