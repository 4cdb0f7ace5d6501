#![tactic(auto)]
// The three entries over straight masks: what is refused, then one call down. The crate `mask` exports them. And the report made one outline at a time, for programs.
pub mod answer;
pub mod area;
pub mod range;
pub mod report;
pub mod running;
pub mod winding;
