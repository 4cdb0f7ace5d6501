#![tactic(auto)]
// Start anywhere: from which segment a view between two points of an outline starts, and how many segments further on it ends.
pub mod span;
