#![tactic(auto)]
// The ends of a stitch's chains, and what is finished then.
pub mod tally;
