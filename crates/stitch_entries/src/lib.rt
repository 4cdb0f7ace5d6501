#![tactic(auto)]
// The stitch by tolerances: what is refused, then one call down. `mask_stitch` is this call with the tolerances of a setting (`named_entries`), and a replay makes it with those of its record.
pub mod answer;
pub mod stitching;
