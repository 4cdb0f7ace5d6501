#![tactic(auto)]
// The writer of the record `PBR`.
pub mod kept;
pub mod pack;
pub mod write;
