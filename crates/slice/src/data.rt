// Slices stand in three lists: one has the codes of each, one its shape, one its edition.
use outline::point::{Point, Vertex};

// Source, inverted, start, offset.
pub const CODE_WIDTH: usize = 4;

// Updated start x, y, bulge, end bulge, end x, y.
pub const SHAPE_WIDTH: usize = 6;

// The four codes of a slice as they stand in C's list: `source` is 1 or 2, `inverted` 0 or 1.
#[derive(Clone, Copy)]
pub struct Codes {
    pub source: usize,
    pub inverted: usize,
    pub start: usize,
    pub offset: usize,
}

#[derive(Clone, Copy)]
pub struct Shape {
    pub updated_start: Vertex,
    pub end_bulge: f64,
    pub end_point: Point,
}
