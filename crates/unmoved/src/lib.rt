#![tactic(auto)]
// Whether a view has the same vertices on two outlines, bit for bit.
pub mod moved;
