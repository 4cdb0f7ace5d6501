#![tactic(auto, unfolding(basis::specs::Refuse::first_of, crate::specs::SingleEntry::single_refusal))]
// The entry `mask_create_on_single_segment`: its refusals and its answer.
ghost use Rattle.std.specs.Prelude.{◌≡◌};
ghost use Rattle.basis.specs.Number.{tolerance_of};
ghost use Rattle.basis.specs.Refusals.{found};
ghost use Rattle.view_entries.specs.SingleEntry.{single_refusal, single_answer};

use crate::answer::ViewAnswer;
use crate::{answer, input};
use basis::number::Tolerance;
use basis::refuse::Refusal;
use basis::{number, refuse};
use outline::point::{Point, Vertex};
use view::create;

fn refusal(
    outline: &[f64],
    vc: usize,
    start: usize,
    first: Vertex,
    end: Point,
    t: Tolerance,
) -> Result<(), Refusal>
    ensures { found result ≡ single_refusal outline.now vc start first end t }
{
    refuse::when(refuse::bad_length(outline.len(), 3, vc), Refusal::Length)?;
    refuse::when(refuse::bad_size(vc), Refusal::Outline)?;
    refuse::when(!number::in_tolerance(t), Refusal::Tolerance)?;
    refuse::when(!number::all_in_range(outline), Refusal::Number)?;
    refuse::when(input::bad_ends(first, end), Refusal::Number)?;
    refuse::when(vc <= start, Refusal::Index)
}

// The view between two points of one segment, or none where they agree.
pub fn entry(
    outline: &[f64],
    vc: usize,
    start_index: usize,
    updated_start: Vertex,
    end_intersect: Point,
    tolerance_x: f64,
    tolerance_y: f64,
) -> ViewAnswer
    ensures { result ≡ single_answer outline.now vc start_index updated_start end_intersect (tolerance_of tolerance_x tolerance_y) }
{
    let t = Tolerance {
        x: tolerance_x,
        y: tolerance_y,
    };
    match refusal(outline, vc, start_index, updated_start, end_intersect, t) {
        Err(refusal) => answer::view_refused(refusal.number()),
        Ok(()) => answer::segment_made(create::create_on_single_segment(
            start_index,
            updated_start,
            end_intersect,
            t,
        )),
    }
}
