#![tactic(auto, unfolding(basis::specs::Refuse::first_from, basis::specs::Refuse::or_else))]
// The entry `mask_unmoved`.
ghost use Rattle.std.specs.Prelude.{◌≡◌};
ghost use Rattle.basis.specs.Refuse.{first_from};
ghost use Rattle.basis.specs.Refusals.{found};
ghost use Rattle.unmoved_entries.specs.UnmovedEntry.{value_rows, index_rows, unmoved_refusal, unmoved_answer};

use crate::answer;
use crate::answer::UnmovedAnswer;
use basis::refuse::Refusal;
use basis::{number, refuse};
use unmoved::moved;
use view::data::ViewData;
use view_entries::input;
use view_entries::input::View;

// Numbers 1, 2, 3 and 5.
fn value_refusal(
    outline1: &[f64],
    vc1: usize,
    outline2: &[f64],
    vc2: usize,
    v: View,
) -> Result<(), Refusal>
    ensures { found result ≡ first_from 0 (value_rows outline1.now vc1 outline2.now vc2 v) }
{
    refuse::when(refuse::bad_length(outline1.len(), 3, vc1), Refusal::Length)?;
    refuse::when(refuse::bad_length(outline2.len(), 3, vc2), Refusal::Length)?;
    refuse::when(refuse::bad_size(vc1), Refusal::Outline)?;
    refuse::when(refuse::bad_size(vc2), Refusal::Outline)?;
    refuse::when(refuse::bad_choice(v.inverted_direction), Refusal::Code)?;
    refuse::when(!number::all_in_range(outline1), Refusal::Number)?;
    refuse::when(!number::all_in_range(outline2), Refusal::Number)?;
    refuse::when(input::bad_view_numbers(v), Refusal::Number)
}

// Numbers 6 and 7, of either outline.
fn index_refusal(vc1: usize, vc2: usize, v: View) -> Result<(), Refusal>
    ensures { found result ≡ first_from 0 (index_rows vc1 vc2 v) }
{
    refuse::when(vc1 <= v.start_index, Refusal::Index)?;
    refuse::when(vc2 <= v.start_index, Refusal::Index)?;
    refuse::when(vc1 < v.end_index_offset, Refusal::Count)?;
    refuse::when(vc2 < v.end_index_offset, Refusal::Count)
}

fn refusal(
    outline1: &[f64],
    vc1: usize,
    outline2: &[f64],
    vc2: usize,
    v: View,
) -> Result<(), Refusal>
    ensures { found result ≡ unmoved_refusal outline1.now vc1 outline2.now vc2 v }
{
    value_refusal(outline1, vc1, outline2, vc2, v)?;
    index_refusal(vc1, vc2, v)
}

// Whether the view has the same vertices on both outlines, bit for bit, and the lowest number of one that differs.
pub fn entry(
    outline1: &[f64],
    vc1: usize,
    outline2: &[f64],
    vc2: usize,
    view: View,
) -> UnmovedAnswer
    ensures { result ≡ unmoved_answer outline1.now vc1 outline2.now vc2 view }
{
    match refusal(outline1, vc1, outline2, vc2, view) {
        Err(refusal) => answer::unmoved_refused(refusal.number()),
        Ok(()) => {
            let v = ViewData::from(view);
            answer::unmoved_told(moved::first_moved(outline1, vc1, outline2, vc2, v))
        }
    }
}
