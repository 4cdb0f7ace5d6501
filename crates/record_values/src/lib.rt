#![tactic(auto)]
// The values of the fields of the record `PBR`, from a stitch.
pub mod values;
