#![tactic(auto)]
// What the entries over the verdict answer: each case of the verdict as numbers, and the edition that a reopened slice has.
pub mod answer;
