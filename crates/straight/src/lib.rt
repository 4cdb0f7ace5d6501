#![tactic(auto)]
// Straight masks in whole microdegrees (document 02, K8): the winding number and the doubled signed area, exactly.
mod edge;
pub mod sum;
