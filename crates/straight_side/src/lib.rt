#![tactic(auto)]
// One outline of the one call for straight masks (document 02, K11): its cuts in order, the other outline in whole microdegrees, and the slices that stay.
pub mod keeping;
