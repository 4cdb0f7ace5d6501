#![tactic(auto, unfolding(crate::specs::Span::can_move, crate::specs::Span::moves_on, crate::specs::Span::start_index_of, crate::specs::Span::ahead, crate::specs::Span::decided, crate::specs::Span::start_nearer, crate::specs::Span::traverse, crate::specs::Span::span_of))]
// From which segment a view between two points starts, and how many segments further on it ends.
ghost use Rattle.std.specs.Prelude.{◌≡◌};
ghost use Rattle.view_span.specs.Span.{EndsFit, Inside, Both, StartFit, can_move, moves_on, start_index_of, ahead, decided, start_nearer, traverse, span_of};

use basis::number::Tolerance;
use outline::point::Point;
use outline::{point, read};
use view::create;

// Two points of an outline, each with the segment that it is on, and whether the outline is closed.
#[derive(Clone, Copy)]
pub struct Ends {
    pub closed: bool,
    pub start_index: usize,
    pub start_point: Point,
    pub end_index: usize,
    pub end_point: Point,
}

// Whether the start moved to the next segment, the segment that it is on then, and how many segments further on the end is.
#[derive(Clone, Copy)]
pub struct Span {
    pub moved: bool,
    pub start_index: usize,
    pub traverse_count: usize,
}

// On an open outline only a start whose index is below the end's can move.
fn can_move(e: Ends) -> bool
    ensures { result ≡ can_move e }
{
    e.closed || e.start_index < e.end_index
}

// The start point stands on the end of its segment, and can move.
fn moves_on(outline: &[f64], vc: usize, e: Ends, t: Tolerance) -> bool
    requires { EndsFit outline.now vc e }
    ensures { result ≡ moves_on outline.now vc e t }
{
    can_move(e) && create::near_vertex(outline, vc, e.start_index + 1, e.start_point, t)
}

// The index, or the next where the start moved.
fn start_index(vc: usize, i: usize, moved: bool) -> usize
    requires { Inside vc i }
    ensures { result ≡ start_index_of vc i moved }
{
    if moved { read::wrapped(i + 1, vc) } else { i }
}

// How many segments further on than segment a segment b is, round the outline.
fn segments_ahead(vc: usize, a: usize, b: usize) -> usize
    requires { Both vc a b }
    ensures { result ≡ ahead vc a b }
{
    read::wrapped(b + (vc - a), vc)
}

// Distances decide: on a closed outline, where the points are on one segment and do not agree.
fn is_decided(e: Ends, n: usize, t: Tolerance) -> bool
    ensures { result ≡ decided e n t }
{
    if n != 0 {
        return false;
    }
    if !e.closed {
        return false;
    }
    !point::points_agree(e.start_point, e.end_point, t)
}

// The start is nearer to the first vertex of segment i than the end.
fn start_nearer(outline: &[f64], vc: usize, i: usize, e: Ends) -> bool
    requires { StartFit outline.now vc e i }
    ensures { result ≡ start_nearer outline.now vc i e }
{
    let v = Point::from(read::outline_at(outline, vc, i));
    point::dist_squared(v, e.start_point) < point::dist_squared(v, e.end_point)
}

// How many segments further on than segment i, where the start is, the end is.
fn traverse_from(outline: &[f64], vc: usize, e: Ends, t: Tolerance, i: usize) -> usize
    requires { StartFit outline.now vc e i }
    ensures { result ≡ traverse outline.now vc e t i }
{
    let n = segments_ahead(vc, i, e.end_index);
    if !is_decided(e, n, t) {
        return n;
    }
    if start_nearer(outline, vc, i, e) {
        0
    } else {
        vc
    }
}

// Where the view starts and how far it reaches.
pub fn span_of(outline: &[f64], vc: usize, e: Ends, t: Tolerance) -> Span
    requires { EndsFit outline.now vc e }
    ensures { result ≡ span_of outline.now vc e t }
{
    let moved = moves_on(outline, vc, e, t);
    let i = start_index(vc, e.start_index, moved);
    Span {
        moved,
        start_index: i,
        traverse_count: traverse_from(outline, vc, e, t, i),
    }
}
