#![tactic(auto)]
// A view: a part of an outline, from a point on one segment to a point on another, forward or inverted.
pub mod create;
pub mod data;
pub mod list;
pub mod vertex;
