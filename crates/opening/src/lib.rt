// Open: the settings' rows, and the session that they open. What it gives is model's definition of it.
#![tactic(auto)]

pub mod open;
pub mod settings;
