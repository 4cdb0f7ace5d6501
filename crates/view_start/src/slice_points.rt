#![tactic(auto, using(crate::proofs::Slices::slices), unfolding(crate::specs::SlicePoints::running_vertex, crate::specs::SlicePoints::walk_over, crate::specs::SlicePoints::collapses, crate::specs::SlicePoints::walked_view, crate::specs::SlicePoints::sliced_view, crate::specs::SlicePoints::slice_view))]
// The view between two points of an outline: the Rust's `from_slice_points`.
ghost use Rattle.std.specs.Prelude.{◌≡◌};
ghost use Rattle.outline.specs.Outline.{Near};
ghost use Rattle.view.specs.Create.{WalkFit};
ghost use Rattle.view_span.specs.Span.{EndsFit, SpanFit};
ghost use Rattle.view_start.specs.SlicePoints.{running_vertex, walk_over, collapses, walked_view, sliced_view, slice_view};

use basis::number::Tolerance;
use outline::point::{Point, Vertex};
use outline::{point, read};
use view::create;
use view::create::Walk;
use view::data::ViewData;
use view_span::span;
use view_span::span::{Ends, Span};

// Of the host's two splits what is used: of the start's the first part's bulge and the split vertex, of the end's the first part.
#[derive(Clone, Copy)]
pub struct Splits {
    pub start_bulge: f64,
    pub start_vertex: Vertex,
    pub end_part: Vertex,
}

// The vertex from which the view goes on: the outline's own where the start moved onto it, else the split vertex of the start's split.
fn running_vertex(outline: &[f64], vc: usize, s: Span, split: Vertex) -> Vertex
    requires { Near outline.now vc s.start_index }
    ensures { result ≡ running_vertex outline.now vc s split }
{
    if s.moved {
        return read::outline_at(outline, vc, s.start_index);
    }
    split
}

// A walk over one segment whose end is on that segment's last vertex, and whose start agrees with the end.
fn is_collapsed(outline: &[f64], vc: usize, w: Walk, t: Tolerance) -> bool
    requires { WalkFit outline.now vc w }
    ensures { result ≡ collapses outline.now vc w t }
{
    if w.traverse_count != 1 {
        return false;
    }
    if !create::near_vertex(outline, vc, w.intersect_index, w.end_intersect, t) {
        return false;
    }
    point::points_agree(Point::from(w.updated_start), w.end_intersect, t)
}

// The view of a walk, or none where it collapses.
fn walked(outline: &[f64], vc: usize, w: Walk, t: Tolerance) -> Option<ViewData>
    requires { WalkFit outline.now vc w }
    ensures { result ≡ walked_view outline.now vc w t }
{
    if is_collapsed(outline, vc, w, t) {
        return None;
    }
    Some(create::create(outline, vc, w, t))
}

// The walk over a span that reaches further than its own segment.
fn walk_over(outline: &[f64], vc: usize, e: Ends, s: Span, p: Splits) -> Walk
    requires { Near outline.now vc s.start_index }
    ensures { result ≡ walk_over outline.now vc e s p }
{
    Walk {
        start_index: s.start_index,
        end_intersect: e.end_point,
        intersect_index: e.end_index,
        updated_start: running_vertex(outline, vc, s, p.start_vertex),
        traverse_count: s.traverse_count,
        split_bulge: p.end_part.bulge,
    }
}

// The view over a span: on one segment or along the outline.
fn sliced(outline: &[f64], vc: usize, e: Ends, t: Tolerance, s: Span, p: Splits) -> Option<ViewData>
    requires { SpanFit outline.now vc e s }
    ensures { result ≡ sliced_view outline.now vc e t s p }
{
    if s.traverse_count == 0 {
        return create::create_on_single_segment(s.start_index, p.end_part, e.end_point, t);
    }
    walked(outline, vc, walk_over(outline, vc, e, s, p), t)
}

// The view from the start point to the end point, or none where nothing lies between them.
pub fn from_slice_points(
    outline: &[f64],
    vc: usize,
    e: Ends,
    t: Tolerance,
    p: Splits,
) -> Option<ViewData>
    requires { EndsFit outline.now vc e }
    ensures { result ≡ slice_view outline.now vc e t p }
{
    let s = span::span_of(outline, vc, e, t);
    sliced(outline, vc, e, t, s, p)
}
