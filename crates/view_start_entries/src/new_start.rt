#![tactic(auto, using(basis::specs::RefusalLaws::looks), unfolding(basis::specs::Refuse::first_of, crate::specs::NewStartEntry::new_start_refusal))]
// The entry `mask_from_new_start`.
ghost use Rattle.std.specs.Prelude.{◌≡◌};
ghost use Rattle.basis.specs.Number.{tolerance_of};
ghost use Rattle.basis.specs.Refusals.{found};
ghost use Rattle.view_start_entries.specs.NewStartEntry.{new_start_refusal, new_start_answer};

use crate::faults;
use basis::number::Tolerance;
use basis::refuse;
use basis::refuse::Refusal;
use outline::point::Point;
use view_entries::answer;
use view_entries::answer::ViewAnswer;
use view_entries::input::Split;
use view_start::new_start;

fn refusal(
    outline: &[f64],
    vc: usize,
    closed: u32,
    i: usize,
    p: Point,
    t: Tolerance,
    start: Split,
    end: Split,
) -> Result<(), Refusal>
    ensures { found result ≡ new_start_refusal outline.now vc closed i p t start end }
{
    faults::shape_refusal(outline, vc, closed, t)?;
    refuse::when(faults::bad_point(p), Refusal::Number)?;
    faults::split_refusal(start, end)?;
    refuse::when(vc <= i, Refusal::Index)
}

// The view that starts a closed outline at a point of it and goes once round, or leads from a point of an open one to its last vertex; none where that point is the last vertex.
pub fn entry(
    outline: &[f64],
    vc: usize,
    closed: u32,
    start_index: usize,
    start_point: Point,
    tolerance_x: f64,
    tolerance_y: f64,
    start_split: Split,
    end_split: Split,
) -> ViewAnswer
    ensures { result ≡ new_start_answer outline.now vc closed start_index start_point (tolerance_of tolerance_x tolerance_y) start_split end_split }
{
    let t = Tolerance {
        x: tolerance_x,
        y: tolerance_y,
    };
    match refusal(
        outline,
        vc,
        closed,
        start_index,
        start_point,
        t,
        start_split,
        end_split,
    ) {
        Err(refusal) => answer::view_refused(refusal.number()),
        Ok(()) => {
            let s = faults::splits_of(start_split, end_split);
            answer::segment_made(new_start::from_new_start(
                outline,
                vc,
                closed == 1,
                start_index,
                start_point,
                t,
                s,
            ))
        }
    }
}
