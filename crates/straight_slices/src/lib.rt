#![tactic(auto)]
// One call for straight masks (document 02, K11): the candidates of both outlines, their inside answers, the slices that stay. The crate `mask` exports it.
pub mod entry;
mod faults;
pub mod job;
mod slicing;
