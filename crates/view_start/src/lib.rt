#![tactic(auto)]
// Start anywhere: views between two points of an outline, and views that start an outline at a point of it.
pub mod new_start;
pub mod slice_points;
