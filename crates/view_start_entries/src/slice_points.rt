#![tactic(auto, using(basis::specs::RefusalLaws::looks), unfolding(basis::specs::Refuse::first_of, crate::specs::SliceEntry::slice_refusal))]
// The entry `mask_from_slice_points`.
ghost use Rattle.std.specs.Prelude.{◌≡◌, eqb};
ghost use Rattle.basis.specs.Number.{tolerance_of};
ghost use Rattle.basis.specs.Refusals.{found};
ghost use Rattle.view_span.specs.Span.{ends_of};
ghost use Rattle.view_start_entries.specs.SliceEntry.{slice_refusal, slice_answer};

use crate::faults;
use basis::number::Tolerance;
use basis::refuse;
use basis::refuse::Refusal;
use outline::point::Point;
use view_entries::answer;
use view_entries::answer::ViewAnswer;
use view_entries::input::Split;
use view_span::span::Ends;
use view_start::slice_points;

fn refusal(
    outline: &[f64],
    vc: usize,
    closed: u32,
    e: Ends,
    t: Tolerance,
    start: Split,
    end: Split,
) -> Result<(), Refusal>
    ensures { found result ≡ slice_refusal outline.now vc closed e t start end }
{
    faults::shape_refusal(outline, vc, closed, t)?;
    refuse::when(faults::bad_points(e), Refusal::Number)?;
    faults::split_refusal(start, end)?;
    faults::index_refusal(vc, e)
}

// The view from a point on one segment to a point on another, or none where nothing lies between them.
pub fn entry(
    outline: &[f64],
    vc: usize,
    closed: u32,
    start_index: usize,
    start_point: Point,
    end_index: usize,
    end_point: Point,
    tolerance_x: f64,
    tolerance_y: f64,
    start_split: Split,
    end_split: Split,
) -> ViewAnswer
    ensures { result ≡ slice_answer outline.now vc closed (ends_of (eqb closed 1) start_index start_point end_index end_point) (tolerance_of tolerance_x tolerance_y) start_split end_split }
{
    let e = Ends {
        closed: closed == 1,
        start_index,
        start_point,
        end_index,
        end_point,
    };
    let t = Tolerance {
        x: tolerance_x,
        y: tolerance_y,
    };
    match refusal(outline, vc, closed, e, t, start_split, end_split) {
        Err(refusal) => answer::view_refused(refusal.number()),
        Ok(()) => {
            let p = faults::splits_of(start_split, end_split);
            answer::segment_made(slice_points::from_slice_points(outline, vc, e, t, p))
        }
    }
}
