#![tactic(auto)]
// One outline of the one call for straight masks (document 02, K11): the working lists that it takes.
pub mod keeping;
