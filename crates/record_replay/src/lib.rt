#![tactic(auto)]
// A record read and its stitch run again: document 02, K1 and K14.
pub mod replay;
