#![tactic(auto)]
// The calls on a store: slices put, released, listed and compacted in lent lists.
pub mod keep;
pub mod lent;
