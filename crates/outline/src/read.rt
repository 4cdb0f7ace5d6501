#![tactic(auto, unfolding(crate::specs::Outline::vertex_at, crate::specs::Outline::point_at))]
// Reading an outline: three numbers a vertex, its indexes wrapped by the vertex count.
ghost use Rattle.std.specs.Prelude.{◌≡◌};
ghost use Rattle.outline.specs.Outline.{Triple, Turn, Near, wrap, vertex_at, outline_at, point_at, Two};

use crate::point::{Point, Vertex};

// An index below twice the vertex count, wrapped by it: one comparison and one subtraction. Every wrapped index of the library comes from here.
pub fn wrapped(i: usize, vc: usize) -> usize
    requires { Turn vc i }
    ensures { result ≡ wrap vc i }
{
    if i < vc {
        return i;
    }
    i - vc
}

// The point whose two numbers stand from place i on.
pub fn point_at(s: &[f64], i: usize) -> Point
    requires { Two s.now i }
    ensures { result ≡ point_at s.now i }
{
    Point {
        x: s[i],
        y: s[i + 1],
    }
}

// The vertex at an index that the outline has.
pub fn vertex_at(outline: &[f64], i: usize) -> Vertex
    requires { Triple outline.now i }
    ensures { result ≡ vertex_at outline.now i }
{
    Vertex {
        x: outline[3 * i],
        y: outline[3 * i + 1],
        bulge: outline[3 * i + 2],
    }
}

// The vertex at an index that is wrapped first.
pub fn outline_at(outline: &[f64], vc: usize, i: usize) -> Vertex
    requires { Near outline.now vc i }
    ensures { result ≡ outline_at outline.now vc i }
{
    vertex_at(outline, wrapped(i, vc))
}
