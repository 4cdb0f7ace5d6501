#![tactic(auto, unfolding(crate::specs::Points::dist_squared, crate::specs::Points::points_agree, crate::specs::Points::in_box))]
// Document 01: "A vertex is a record of x, y and bulge, all f64", and "Equal points and boxes".
ghost use Rattle.std.specs.Prelude.{◌≡◌};
ghost use Rattle.outline.specs.Points.{pos_of, at_point, with_bulge, dist_squared, points_agree, in_box};

use basis::number;
use basis::number::Tolerance;

#[repr(C)]
#[derive(Clone, Copy)]
pub struct Point {
    pub x: f64,
    pub y: f64,
}

#[repr(C)]
#[derive(Clone, Copy)]
pub struct Vertex {
    pub x: f64,
    pub y: f64,
    pub bulge: f64,
}

// The vertex's position.
impl From<Vertex> for Point {
    ghost from_gives = { λ v result. result ≡ pos_of v };

    fn from(v: Vertex) -> Point {
        Point { x: v.x, y: v.y }
    }
}

impl Point {
    // A vertex at the point.
    pub fn vertex(self, bulge: f64) -> Vertex
        ensures { result ≡ at_point self bulge }
    {
        Vertex {
            x: self.x,
            y: self.y,
            bulge,
        }
    }
}

impl Vertex {
    // The same vertex with another bulge.
    pub fn with_bulge(self, bulge: f64) -> Vertex
        ensures { result ≡ with_bulge self bulge }
    {
        let mut vertex = self;
        vertex.bulge = bulge;
        vertex
    }
}

// dx * dx + dy * dy, each operation rounded once.
pub fn dist_squared(p: Point, q: Point) -> f64
    ensures { result ≡ dist_squared p q }
{
    let dx = p.x - q.x;
    let dy = p.y - q.y;
    dx * dx + dy * dy
}

// Both coordinates agree, each by the tolerance of its axis.
pub fn points_agree(a: Point, b: Point, t: Tolerance) -> bool
    ensures { result ≡ points_agree t a b }
{
    number::agrees(a.x, b.x, t.x) && number::agrees(a.y, b.y, t.y)
}

// The point p is in the closed box around the end e.
pub fn in_box(p: Point, e: Point, t: Tolerance) -> bool
    ensures { result ≡ in_box t e p }
{
    number::in_span(p.x, e.x, t.x) && number::in_span(p.y, e.y, t.y)
}
