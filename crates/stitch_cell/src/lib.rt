#![tactic(auto)]
// The cell of a coordinate, by which a stitch finds the start points near an end.
pub mod cell;
pub mod lower;
