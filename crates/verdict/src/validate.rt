#![tactic(auto, unfolding(crate::specs::Validate::near_segment, crate::specs::Validate::on_segment, crate::specs::Validate::bulge_verdict, crate::specs::Validate::final_verdict, crate::specs::Validate::end_verdict, crate::specs::Validate::start_verdict, crate::specs::Validate::verdict_of, crate::specs::Validate::end_index_of))]
// `validate_for_source`: the verdict carries what it is about. The questions come in the Rust's order, a function for each.
ghost use Rattle.std.specs.Prelude.{◌≡◌};
ghost use Rattle.outline.specs.Outline.{Segment};
ghost use Rattle.view.specs.View.{Fit};
ghost use Rattle.verdict.specs.Validate.{Asked, near_segment, on_segment, bulge_verdict, final_verdict, end_verdict, start_verdict, verdict_of};

use basis::number;
use basis::number::Tolerance;
use outline::point::{Point, Vertex};
use outline::read;
use view::create;
use view::data::ViewData;

const VALIDATION_EPS: f64 = 1e-5;

const VALIDATION_POINT_ON_SEG_EPS: f64 = 1e-3;

// The Rust's enum, case by case.
#[derive(Clone, Copy)]
pub enum ViewDataValidation {
    SourceHasNoSegments,
    OffsetOutOfRange {
        offset: usize,
        source_length: usize,
    },
    UpdatedStartNotOnSegment {
        start_point: Point,
    },
    EndPointNotOnSegment {
        end_point: Point,
    },
    EndPointOnFinalOffsetVertex {
        end_point: Point,
        final_offset_vertex: Vertex,
    },
    UpdatedBulgeDoesNotMatch {
        updated_bulge: f64,
        expected: f64,
    },
    IsValid,
}

// Near one of the segment's two vertices.
fn near_segment(outline: &[f64], vc: usize, i: usize, p: Point) -> bool
    requires { Segment outline.now vc i }
    ensures { result ≡ near_segment outline.now vc i p }
{
    let t = Tolerance {
        x: VALIDATION_POINT_ON_SEG_EPS,
        y: VALIDATION_POINT_ON_SEG_EPS,
    };
    create::near_vertex(outline, vc, i, p, t) || create::near_vertex(outline, vc, i + 1, p, t)
}

// Near it, or the host says yes.
fn on_segment(outline: &[f64], vc: usize, i: usize, p: Point, host: bool) -> bool
    requires { Segment outline.now vc i }
    ensures { result ≡ on_segment outline.now vc i p host }
{
    near_segment(outline, vc, i, p) || host
}

// The last question: the end bulge of a view on one segment.
fn bulge_verdict(v: ViewData) -> ViewDataValidation
    ensures { result ≡ bulge_verdict v }
{
    if v.end_index_offset != 0 {
        return ViewDataValidation::IsValid;
    }
    if number::agrees(v.updated_end_bulge, v.updated_start.bulge, VALIDATION_EPS) {
        return ViewDataValidation::IsValid;
    }
    ViewDataValidation::UpdatedBulgeDoesNotMatch {
        updated_bulge: v.updated_end_bulge,
        expected: v.updated_start.bulge,
    }
}

// From the fifth question on: the end on the vertex that its segment starts with.
fn final_verdict(outline: &[f64], vc: usize, v: ViewData, end_index: usize) -> ViewDataValidation
    requires { Segment outline.now vc end_index }
    ensures { result ≡ final_verdict outline.now vc v end_index }
{
    let end = v.end_point;
    let t = Tolerance {
        x: VALIDATION_EPS,
        y: VALIDATION_EPS,
    };
    if create::near_vertex(outline, vc, end_index, end, t) {
        let last = read::outline_at(outline, vc, end_index);
        return ViewDataValidation::EndPointOnFinalOffsetVertex {
            end_point: end,
            final_offset_vertex: last,
        };
    }
    bulge_verdict(v)
}

// From the fourth question on: the end on its segment.
fn end_verdict(
    outline: &[f64],
    vc: usize,
    v: ViewData,
    end_index: usize,
    end_on: bool,
) -> ViewDataValidation
    requires { Segment outline.now vc end_index }
    ensures { result ≡ end_verdict outline.now vc v end_index end_on }
{
    let end = v.end_point;
    if !on_segment(outline, vc, end_index, end, end_on) {
        return ViewDataValidation::EndPointNotOnSegment { end_point: end };
    }
    final_verdict(outline, vc, v, end_index)
}

// From the third question on: the start on its segment.
fn start_verdict(
    outline: &[f64],
    vc: usize,
    v: ViewData,
    start_on: bool,
    end_on: bool,
) -> ViewDataValidation
    requires { Fit outline.now vc v }
    ensures { result ≡ start_verdict outline.now vc v start_on end_on }
{
    let start = Point::from(v.updated_start);
    if !on_segment(outline, vc, v.start_index, start, start_on) {
        return ViewDataValidation::UpdatedStartNotOnSegment { start_point: start };
    }
    let end_index = read::wrapped(v.start_index + v.end_index_offset, vc);
    end_verdict(outline, vc, v, end_index, end_on)
}

// The verdict on view data over an outline.
pub fn validate_for_source(
    outline: &[f64],
    vc: usize,
    v: ViewData,
    start_on: bool,
    end_on: bool,
) -> ViewDataValidation
    requires { Asked outline.now vc v }
    ensures { result ≡ verdict_of outline.now vc v start_on end_on }
{
    if vc < 2 {
        return ViewDataValidation::SourceHasNoSegments;
    }
    if vc < v.end_index_offset {
        return ViewDataValidation::OffsetOutOfRange {
            offset: v.end_index_offset,
            source_length: vc,
        };
    }
    start_verdict(outline, vc, v, start_on, end_on)
}
