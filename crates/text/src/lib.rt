#![tactic(auto)]
// Text of the programs: what is read, a line of two whole numbers; what is printed, a number of two words in decimal.
pub mod decimal;
pub mod lines;
