#![tactic(auto)]
// The refusals of a stitch by tolerances, all but those of editions, which the slices have.
pub mod faults;
