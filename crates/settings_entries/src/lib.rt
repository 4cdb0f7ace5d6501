#![tactic(auto)]
// The entries over the record of settings: what is refused, then one call down. The crate `mask` exports them.
pub mod answer;
pub mod ask;
pub mod enter;
