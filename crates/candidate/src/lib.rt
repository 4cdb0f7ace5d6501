#![tactic(auto)]
// The candidates of one outline: the pieces between neighbouring cuts, and the walks from a segment's last cut to the next segment that has one.
pub mod at_cut;
pub mod next;
