// Doubles as Rust reads them: whether one is finite or whole, the whole numbers near it, readings, seconds and nanoseconds. Every
// public function is total: NaN, infinities, negatives, subnormals.
#![tactic(auto)]

mod parts;
pub mod time;
pub mod whole;
