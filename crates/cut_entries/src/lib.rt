#![tactic(auto)]
// The entry over the order of the cuts, which the crate `mask` exports, and the refusals that it shares with the entries over candidates.
pub mod faults;
pub mod order;
