#![tactic(auto, unfolding(crate::specs::Create::near_vertex, crate::specs::Create::bulge_before, crate::specs::Create::create_view, crate::specs::Create::single_view, crate::specs::Create::entire_offset, crate::specs::Create::entire_view))]
// The constructors of a view. None looks at refusals: their callers have.
ghost use Rattle.std.specs.Prelude.{◌≡◌, ◌≤◌};
ghost use Rattle.outline.specs.Outline.{Whole, Near};
ghost use Rattle.view.specs.Create.{WalkFit, near_vertex, bulge_before, create_view, single_view, entire_offset, entire_view};

use crate::data::ViewData;
use basis::number::Tolerance;
use outline::point::{Point, Vertex};
use outline::{point, read};

// What `create` is given beside the outline. Of the host's split of the segment at the intersect index, at the end point, it has the bulge of the first part.
#[derive(Clone, Copy)]
pub struct Walk {
    pub start_index: usize,
    pub end_intersect: Point,
    pub intersect_index: usize,
    pub updated_start: Vertex,
    pub traverse_count: usize,
    pub split_bulge: f64,
}

// The point agrees with the outline's vertex at an index that wraps.
pub fn near_vertex(outline: &[f64], vc: usize, i: usize, p: Point, t: Tolerance) -> bool
    requires { Near outline.now vc i }
    ensures { result ≡ near_vertex outline.now vc i p t }
{
    let v = read::outline_at(outline, vc, i);
    point::points_agree(p, Point::from(v), t)
}

// The end bulge where the end agrees with a vertex.
fn bulge_before(outline: &[f64], vc: usize, w: Walk) -> f64
    requires { WalkFit outline.now vc w }
    ensures { result ≡ bulge_before outline.now vc w }
{
    if w.traverse_count - 1 == 0 {
        return w.updated_start.bulge;
    }
    read::outline_at(outline, vc, w.intersect_index + (vc - 1)).bulge
}

// The view that walks from its start to a point on another segment, or all the way round.
pub fn create(outline: &[f64], vc: usize, w: Walk, t: Tolerance) -> ViewData
    requires { WalkFit outline.now vc w }
    ensures { result ≡ create_view outline.now vc w t }
{
    let between = ViewData {
        start_index: w.start_index,
        end_index_offset: w.traverse_count,
        updated_start: w.updated_start,
        updated_end_bulge: w.split_bulge,
        end_point: w.end_intersect,
        inverted_direction: false,
    };
    if near_vertex(outline, vc, w.intersect_index, w.end_intersect, t) {
        return ViewData {
            end_index_offset: w.traverse_count - 1,
            updated_end_bulge: bulge_before(outline, vc, w),
            ..between
        };
    }
    between
}

// The view between two points of one segment, or none where both agree.
pub fn create_on_single_segment(
    start_index: usize,
    updated_start: Vertex,
    end_intersect: Point,
    t: Tolerance,
) -> Option<ViewData>
    ensures { result ≡ single_view start_index updated_start end_intersect t }
{
    if point::points_agree(Point::from(updated_start), end_intersect, t) {
        return None;
    }
    Some(ViewData {
        start_index,
        end_index_offset: 0,
        updated_start,
        updated_end_bulge: updated_start.bulge,
        end_point: end_intersect,
        inverted_direction: false,
    })
}

// How far the view of a whole outline reaches.
fn entire_offset(vc: usize, closed: bool) -> usize
    requires { 2 ≤ vc }
    ensures { result ≡ entire_offset vc closed }
{
    if closed { vc - 1 } else { vc - 2 }
}

// The view of a whole outline, which ends at its first vertex where it is closed and at its last where it is open.
pub fn from_entire_pline(outline: &[f64], vc: usize, closed: bool) -> ViewData
    requires { Whole outline.now vc }
    ensures { result ≡ entire_view outline.now vc closed }
{
    let offset = entire_offset(vc, closed);
    let first = read::outline_at(outline, vc, 0);
    let last = read::outline_at(outline, vc, offset);
    let end = Point::from(read::outline_at(outline, vc, offset + 1));
    ViewData {
        start_index: 0,
        end_index_offset: offset,
        updated_start: first,
        updated_end_bulge: last.bulge,
        end_point: end,
        inverted_direction: false,
    }
}
