#![tactic(auto)]
// The slices of a stitch: their start points, and a slice added to a chain.
pub mod slices;
