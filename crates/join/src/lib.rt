#![tactic(auto)]
// How far a join can be off. This crate has no code: its theorems are about the run of a stitch.
