#![tactic(auto)]
// Along the cuts of one outline of the one call for straight masks (document 02, K11): its candidates by straight splits, their inside answers in the other outline, and those that stay as slices.
pub mod along;
