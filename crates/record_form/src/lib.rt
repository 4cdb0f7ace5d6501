#![tactic(auto)]
// The layout of the record `PBR` of document 02, K1 and K14: a version is a table of widths.
pub mod form;
