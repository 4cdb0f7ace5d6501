#![tactic(auto, unfolding(crate::specs::VerdictAnswers::verdict_refused, crate::specs::VerdictAnswers::verdict_given))]
// What `mask_validate_for_source` and `mask_reopen` answer: flat structs, by value. What a verdict does not name is 0.
ghost use Rattle.std.specs.Prelude.{◌≡◌};
ghost use Rattle.verdict_answer.specs.VerdictAnswers.{verdict_refused, verdict_given, reopen_record};

use outline::point::{Point, Vertex};
use verdict::validate::ViewDataValidation;
use view_entries::answer::{NO_POINT, NO_VERTEX};

#[repr(C)]
#[derive(Clone, Copy)]
pub struct VerdictAnswer {
    pub refusal: u32,
    pub verdict: u32,
    pub offset: usize,
    pub source_length: usize,
    pub point: Point,
    pub vertex: Vertex,
    pub updated_bulge: f64,
    pub expected: f64,
}

// A verdict, and the edition that the slice has from now on.
#[repr(C)]
#[derive(Clone, Copy)]
pub struct ReopenAnswer {
    pub refusal: u32,
    pub verdict: u32,
    pub offset: usize,
    pub source_length: usize,
    pub point: Point,
    pub vertex: Vertex,
    pub updated_bulge: f64,
    pub expected: f64,
    pub edition: u32,
}

// What an answer carries that a verdict does not name.
const NOTHING: VerdictAnswer = VerdictAnswer {
    refusal: 0,
    verdict: 0,
    offset: 0,
    source_length: 0,
    point: NO_POINT,
    vertex: NO_VERTEX,
    updated_bulge: 0.0,
    expected: 0.0,
};

pub fn verdict_refused(number: u32) -> VerdictAnswer
    ensures { result ≡ verdict_refused number }
{
    VerdictAnswer {
        refusal: number,
        ..NOTHING
    }
}

// Each case of the verdict by its number, with the values that it names.
pub fn verdict_given(v: ViewDataValidation) -> VerdictAnswer
    ensures { result ≡ verdict_given v }
{
    match v {
        ViewDataValidation::SourceHasNoSegments => VerdictAnswer {
            verdict: 1,
            ..NOTHING
        },
        ViewDataValidation::OffsetOutOfRange {
            offset,
            source_length,
        } => VerdictAnswer {
            verdict: 2,
            offset,
            source_length,
            ..NOTHING
        },
        ViewDataValidation::UpdatedStartNotOnSegment { start_point } => VerdictAnswer {
            verdict: 3,
            point: start_point,
            ..NOTHING
        },
        ViewDataValidation::EndPointNotOnSegment { end_point } => VerdictAnswer {
            verdict: 4,
            point: end_point,
            ..NOTHING
        },
        ViewDataValidation::EndPointOnFinalOffsetVertex {
            end_point: point,
            final_offset_vertex: vertex,
        } => VerdictAnswer {
            verdict: 5,
            point,
            vertex,
            ..NOTHING
        },
        ViewDataValidation::UpdatedBulgeDoesNotMatch {
            updated_bulge,
            expected,
        } => VerdictAnswer {
            verdict: 6,
            updated_bulge,
            expected,
            ..NOTHING
        },
        ViewDataValidation::IsValid => VerdictAnswer {
            verdict: 7,
            ..NOTHING
        },
    }
}

// A verdict's answer as it is, with an edition beside it. Field by field: both structs are the C interface's, and flat.
pub fn reopen_record(a: VerdictAnswer, edition: u32) -> ReopenAnswer
    ensures { result ≡ reopen_record a edition }
{
    ReopenAnswer {
        refusal: a.refusal,
        verdict: a.verdict,
        offset: a.offset,
        source_length: a.source_length,
        point: a.point,
        vertex: a.vertex,
        updated_bulge: a.updated_bulge,
        expected: a.expected,
        edition,
    }
}
