#![tactic(auto)]
// The candidates, written into lent room.
pub mod put;
pub mod write;
