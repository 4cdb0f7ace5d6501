#![tactic(auto)]
// The candidates of an accepted call, with working lists of their own: along the order that is found, or along a hint.
pub mod found;
mod front;
pub mod told;
