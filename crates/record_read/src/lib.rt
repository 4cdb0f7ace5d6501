#![tactic(auto)]
// The reader of the record `PBR`.
pub mod body;
pub mod read;
