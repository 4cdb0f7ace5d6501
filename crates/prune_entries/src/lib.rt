#![tactic(auto)]
// The entry over pruning: what is refused, then one call down. The crate `mask` exports it.
pub mod answer;
pub mod faults;
pub mod pruning;
