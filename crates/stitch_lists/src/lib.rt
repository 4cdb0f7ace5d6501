#![tactic(auto)]
// The stitch with working lists of its own, in three sizes.
pub mod write;
