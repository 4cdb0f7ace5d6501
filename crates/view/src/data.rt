use outline::point::{Point, Vertex};

// The Rust's PlineViewData, by value. The outline stands beside it.
#[derive(Clone, Copy)]
pub struct ViewData {
    pub start_index: usize,
    pub end_index_offset: usize,
    pub updated_start: Vertex,
    pub updated_end_bulge: f64,
    pub end_point: Point,
    pub inverted_direction: bool,
}
