#![tactic(auto)]
// Five entries over views: what is refused, then one call down. The crate `mask` exports them.
pub mod answer;
pub mod create;
pub mod entire;
pub mod input;
pub mod single;
pub mod view_vertex;
pub mod view_vertices;
