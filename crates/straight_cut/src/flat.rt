// Number 18: whether outlines and cuts are straight, in whole microdegrees. Each loop looks at all, with no branch, so that it stays fast.
ghost use Rattle.std.specs.Prelude.{◌≡◌};
ghost use Rattle.straight_cut.specs.Straight.{straight_vertex, straight_shape, straight_outline, whole_points, straight_laps};

use crate::microdegrees;
use outline::point::Vertex;
use outline::read;
use slice::data::{SHAPE_WIDTH, Shape};

// Both coordinates are whole and the bulge is zero, of which -0 is one.
fn straight_vertex(v: Vertex) -> bool
    ensures { result ≡ straight_vertex v }
{
    microdegrees::is_whole(v.x) & microdegrees::is_whole(v.y) & (v.bulge == 0.0)
}

// Both ends of an overlap's view are.
fn straight_shape(s: Shape) -> bool
    ensures { result ≡ straight_shape s }
{
    let end = s.end_point.vertex(s.end_bulge);
    straight_vertex(s.updated_start) & straight_vertex(end)
}

// Every vertex of the outline is straight and whole.
pub fn straight_outline(outline: &[f64]) -> bool
    ensures { result ≡ straight_outline outline.now }
{
    let mut ok = true;
    for i in 0..outline.len() / 3 {
        ok = ok & straight_vertex(read::vertex_at(outline, i));
    }
    ok
}

// Every number of the intersections' points is whole.
#[tactic(auto, using(basis::specs::All::scan), unfolding(basis::specs::All::all_of))]
pub fn whole_points(points: &[f64]) -> bool
    ensures { result ≡ whole_points points.now }
{
    let mut ok = true;
    for x in points {
        ok = ok & microdegrees::is_whole(*x);
    }
    ok
}

// Every overlap's view is straight and whole at both ends.
pub fn straight_laps(lap: &[f64]) -> bool
    ensures { result ≡ straight_laps lap.now }
{
    let mut ok = true;
    for i in 0..lap.len() / SHAPE_WIDTH {
        ok = ok & straight_shape(slice::read::shape_at(lap, i));
    }
    ok
}
