#![tactic(auto)]
// The record `PBR` of document 02, K1 and K14: an archived stitch. What bytes hold, and the head, by which bytes are refused.
pub mod head;
