#![tactic(auto)]
// The entries that name a setting: what the record refuses, then the call with the setting's numbers. The crate `mask` exports them.
pub mod areas;
pub mod known;
pub mod stitching;
