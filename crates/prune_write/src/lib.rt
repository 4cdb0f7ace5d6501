#![tactic(auto)]
// The slices of a mode, written into lent room.
pub mod write;
