#![tactic(auto)]
// A chain's vertices in lent room: three numbers a vertex, the chain's first vertex in front.
pub mod grow;
