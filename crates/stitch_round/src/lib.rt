#![tactic(auto)]
// A round of the stitch: the candidates of an end, what the selector answers.
pub mod scan;
pub mod step;
