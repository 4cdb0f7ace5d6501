#![tactic(auto)]
// The run of a stitch, as data. Its definitions say what a stitch is, its theorems are demand 3, and its structs hold what is handed to a call. This crate has no function.
pub mod plan;
