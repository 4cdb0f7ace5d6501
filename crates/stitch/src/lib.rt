#![tactic(auto)]
// The stitch: each slice's turn, the loops, and the room that a stitch needs.
pub mod lent;
pub mod turn;
pub mod write;
