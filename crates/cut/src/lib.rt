#![tactic(auto)]
// The cuts of one outline: what each arrival is.
pub mod arrival;
