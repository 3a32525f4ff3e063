// What a program that runs lists of calls does with a line: desk is what it holds between two lines, line has what a line asks for,
// reply and key what it is answered; list runs them all.
#![tactic(auto)]

pub mod desk;
pub mod key;
pub mod line;
pub mod list;
pub mod reply;
