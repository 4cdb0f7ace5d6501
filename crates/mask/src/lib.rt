#![tactic(auto)]
// The entries, each a thin function over the crates below. `mask_c` exports them to C.
pub mod at_once;
pub mod cutting;
pub mod keeping;
pub mod measuring;
pub mod pruning;
pub mod recording;
pub mod reopening;
pub mod setting;
pub mod starting;
pub mod stitching;
pub mod viewing;
