#![tactic(auto)]
// The slices of a stitch on lists of cells, and the lowest on them that an end may join.
pub mod hang;
pub mod look;
