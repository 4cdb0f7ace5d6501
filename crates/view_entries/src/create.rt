#![tactic(auto, unfolding(basis::specs::Refuse::first_of, crate::specs::CreateEntry::create_refusal, crate::specs::CreateEntry::traverse_fault))]
// The entry `mask_create`: its refusals and its answer.
ghost use Rattle.std.specs.Prelude.{◌≡◌};
ghost use Rattle.basis.specs.Number.{tolerance_of};
ghost use Rattle.basis.specs.Refusals.{found};
ghost use Rattle.view_entries.specs.Inputs.{walk_of};
ghost use Rattle.view_entries.specs.CreateEntry.{create_refusal, create_answer, traverse_fault};

use crate::answer::ViewAnswer;
use crate::input::Split;
use crate::{answer, input};
use basis::number::Tolerance;
use basis::refuse::Refusal;
use basis::{number, refuse};
use outline::point::{Point, Vertex};
use view::create;
use view::create::Walk;

// Number 7: a traverse count of 0 or above the vertex count.
fn bad_traverse(count: usize, vc: usize) -> bool
    ensures { result ≡ traverse_fault vc count }
{
    count == 0 || vc < count
}

fn refusal(outline: &[f64], vc: usize, w: Walk, t: Tolerance, split: Split) -> Result<(), Refusal>
    ensures { found result ≡ create_refusal outline.now vc w t split }
{
    refuse::when(refuse::bad_length(outline.len(), 3, vc), Refusal::Length)?;
    refuse::when(refuse::bad_size(vc), Refusal::Outline)?;
    refuse::when(!number::in_tolerance(t), Refusal::Tolerance)?;
    refuse::when(!number::all_in_range(outline), Refusal::Number)?;
    refuse::when(input::bad_walk_numbers(w, split), Refusal::Number)?;
    refuse::when(vc <= w.start_index, Refusal::Index)?;
    refuse::when(vc <= w.intersect_index, Refusal::Index)?;
    refuse::when(bad_traverse(w.traverse_count, vc), Refusal::Count)
}

// The view that walks from its start over `traverse_count` segments to an end on the segment at `intersect_index`.
pub fn entry(
    outline: &[f64],
    vc: usize,
    start_index: usize,
    end_intersect: Point,
    intersect_index: usize,
    updated_start: Vertex,
    traverse_count: usize,
    tolerance_x: f64,
    tolerance_y: f64,
    split: Split,
) -> ViewAnswer
    ensures { result ≡ create_answer outline.now vc (walk_of start_index end_intersect intersect_index updated_start traverse_count split) (tolerance_of tolerance_x tolerance_y) split }
{
    let w = Walk {
        start_index,
        end_intersect,
        intersect_index,
        updated_start,
        traverse_count,
        split_bulge: split.updated_start.bulge,
    };
    let t = Tolerance {
        x: tolerance_x,
        y: tolerance_y,
    };
    match refusal(outline, vc, w, t, split) {
        Err(refusal) => answer::view_refused(refusal.number()),
        Ok(()) => answer::view_made(create::create(outline, vc, w, t)),
    }
}
