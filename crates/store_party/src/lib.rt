#![tactic(auto)]
// Document 02, K10: a store that two parties share. Each has half of the places of every list, and a call of one is lent that half alone.
pub mod half;
