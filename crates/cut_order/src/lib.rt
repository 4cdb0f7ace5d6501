#![tactic(auto)]
// The cuts in their order, written into lent room.
pub mod along;
mod keys;
mod order;
pub mod write;
