#![tactic(auto)]
// What C links: the entries of `mask` under their names, each with the same clauses.
pub mod at_once;
pub mod cutting;
pub mod keeping;
pub mod measuring;
pub mod pruning;
pub mod recording;
pub mod reopening;
pub mod setting;
pub mod starting;
pub mod stitching;
pub mod viewing;
