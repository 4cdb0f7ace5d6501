#![tactic(auto)]
// The slices of a stitch on lists of cells: which list a slice is on, and every slice put on its list.
pub mod layout;
