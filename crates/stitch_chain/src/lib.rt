#![tactic(auto)]
// A chain: round after round, from its first slice to its end.
pub mod rounds;
pub mod table;
