#![tactic(auto)]
// Points and vertices by value, outlines of flat triples, read and written.
pub mod point;
pub mod read;
pub mod write;
