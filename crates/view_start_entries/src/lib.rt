#![tactic(auto)]
// The entries for starting anywhere: what to split, the view between two points, the view from a new start.
pub mod answer;
pub mod faults;
pub mod new_start;
pub mod slice_points;
pub mod span;
