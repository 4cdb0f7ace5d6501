#![tactic(auto)]
// The parts of the one call for straight masks (document 02, K11): whole microdegrees read from an f64, the splits of straight segments, the inside answers.
pub mod at_cut;
pub mod flat;
pub mod inside;
pub mod microdegrees;
