#![tactic(auto)]
// Exact whole numbers: signed operations, one in each function, with contracts in ℤ; and sums held as two 64-bit words.
pub mod signed;
pub mod two;
