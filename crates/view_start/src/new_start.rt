#![tactic(auto, using(crate::proofs::NewStarts::news), unfolding(crate::specs::NewStart::round_view, crate::specs::NewStart::new_start_view))]
// The view that starts an outline at a point of it: the Rust's `from_new_start`.
ghost use Rattle.std.specs.Prelude.{◌≡◌};
ghost use Rattle.outline.specs.Outline.{Whole, Segment};
ghost use Rattle.view_start.specs.NewStart.{round_ends, last_ends, round_view, new_start_view};

use crate::slice_points;
use crate::slice_points::Splits;
use basis::number::Tolerance;
use outline::point::Point;
use outline::read;
use view::create;
use view::create::Walk;
use view::data::ViewData;
use view_span::span;
use view_span::span::Ends;

// From the point all the way round to the point.
fn round_ends(i: usize, p: Point) -> Ends
    ensures { result ≡ round_ends i p }
{
    Ends {
        closed: true,
        start_index: i,
        start_point: p,
        end_index: i,
        end_point: p,
    }
}

// From the point to the last vertex.
fn last_ends(outline: &[f64], vc: usize, i: usize, p: Point) -> Ends
    requires { Whole outline.now vc }
    ensures { result ≡ last_ends outline.now vc i p }
{
    let last = Point::from(read::outline_at(outline, vc, vc - 1));
    Ends {
        closed: false,
        start_index: i,
        start_point: p,
        end_index: vc - 1,
        end_point: last,
    }
}

// Once round a closed outline.
fn once_round(outline: &[f64], vc: usize, i: usize, p: Point, t: Tolerance, s: Splits) -> ViewData
    requires { Segment outline.now vc i }
    ensures { result ≡ round_view outline.now vc i p t s }
{
    let m = span::span_of(outline, vc, round_ends(i, p), t);
    let w = Walk {
        start_index: m.start_index,
        end_intersect: p,
        intersect_index: m.start_index,
        updated_start: s.start_vertex,
        traverse_count: vc,
        split_bulge: s.start_bulge,
    };
    create::create(outline, vc, w, t)
}

// A closed outline once round from the point, an open one from the point to its last vertex; none where an open one's point is that vertex.
pub fn from_new_start(
    outline: &[f64],
    vc: usize,
    closed: bool,
    i: usize,
    p: Point,
    t: Tolerance,
    s: Splits,
) -> Option<ViewData>
    requires { Segment outline.now vc i }
    ensures { result ≡ new_start_view outline.now vc closed i p t s }
{
    if closed {
        return Some(once_round(outline, vc, i, p, t, s));
    }
    let e = last_ends(outline, vc, i, p);
    slice_points::from_slice_points(outline, vc, e, t, s)
}
