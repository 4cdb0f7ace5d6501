#![tactic(auto)]
// Which candidates stay as slices, in which order and direction, with the overlaps behind them.
pub mod call;
pub mod codes;
pub mod counts;
pub mod lists;
pub mod mode;
