#![tactic(auto)]
// The verdict on view data: whether it fits its outline.
pub mod validate;
