#![tactic(auto)]
// The entries over the store: what is refused, then one call down. The crate `mask` exports them.
pub mod answer;
pub mod faults;
pub mod storing;
