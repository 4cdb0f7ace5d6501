#![tactic(auto)]
// The entries over the candidates: what is refused, then one call down. The crate `mask` exports them.
pub mod along;
mod faults;
pub mod slicing;
