#![tactic(auto)]
// The entry over a view on two outlines: what is refused, then one call down. The crate `mask` exports it.
pub mod answer;
pub mod moving;
