#![tactic(auto)]
// The area pass by a limit: what is refused, then one call down. `mask_area_pass` is this call with the limit of a setting (`named_entries`).
pub mod areas;
