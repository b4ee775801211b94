// Loops over the animals of a table that passed its checks: whether every animal reaches every other, and the set of those
// that one reaches.
#![tactic(auto)]

pub mod sets;
pub mod walks;
