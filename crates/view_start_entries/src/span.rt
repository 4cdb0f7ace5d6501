#![tactic(auto, using(basis::specs::RefusalLaws::looks), unfolding(basis::specs::Refuse::first_of, crate::specs::SpanEntry::span_refusal))]
// The entry `mask_slice_span`.
ghost use Rattle.std.specs.Prelude.{◌≡◌, eqb};
ghost use Rattle.basis.specs.Number.{tolerance_of};
ghost use Rattle.basis.specs.Refusals.{found};
ghost use Rattle.view_span.specs.Span.{ends_of};
ghost use Rattle.view_start_entries.specs.SpanEntry.{span_refusal, span_answer};

use crate::answer::SpanAnswer;
use crate::{answer, faults};
use basis::number::Tolerance;
use basis::refuse;
use basis::refuse::Refusal;
use outline::point::Point;
use view_span::span;
use view_span::span::Ends;

fn refusal(outline: &[f64], vc: usize, closed: u32, e: Ends, t: Tolerance) -> Result<(), Refusal>
    ensures { found result ≡ span_refusal outline.now vc closed e t }
{
    faults::shape_refusal(outline, vc, closed, t)?;
    refuse::when(faults::bad_points(e), Refusal::Number)?;
    faults::index_refusal(vc, e)
}

// The segment that the view between two points starts on, and how many segments further on it ends: what the host has to split.
pub fn entry(
    outline: &[f64],
    vc: usize,
    closed: u32,
    start_index: usize,
    start_point: Point,
    end_index: usize,
    end_point: Point,
    tolerance_x: f64,
    tolerance_y: f64,
) -> SpanAnswer
    ensures { result ≡ span_answer outline.now vc closed (ends_of (eqb closed 1) start_index start_point end_index end_point) (tolerance_of tolerance_x tolerance_y) }
{
    let e = Ends {
        closed: closed == 1,
        start_index,
        start_point,
        end_index,
        end_point,
    };
    let t = Tolerance {
        x: tolerance_x,
        y: tolerance_y,
    };
    match refusal(outline, vc, closed, e, t) {
        Err(refusal) => answer::span_refused(refusal.number()),
        Ok(()) => answer::span_told(span::span_of(outline, vc, e, t)),
    }
}
