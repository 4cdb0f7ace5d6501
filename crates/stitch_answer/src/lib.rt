#![tactic(auto)]
// What the selector answers for an end, by lists of cells.
pub mod answer;
