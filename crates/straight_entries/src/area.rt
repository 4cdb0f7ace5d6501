#![tactic(auto, unfolding(basis::specs::Refuse::first_of, crate::specs::AreaEntry::area_refusal))]
// The entry `mask_straight_area`.
ghost use Rattle.std.specs.Prelude.{◌≡◌};
ghost use Rattle.basis.specs.Refusals.{found};
ghost use Rattle.straight_entries.specs.AreaEntry.{area_refusal, area_answer};

use crate::answer::AreaAnswer;
use crate::{answer, range};
use basis::refuse;
use basis::refuse::Refusal;
use straight::sum;

fn refusal(outline: &[i64], vc: usize) -> Result<(), Refusal>
    ensures { found result ≡ area_refusal outline.now vc }
{
    refuse::when(refuse::bad_length(outline.len(), 2, vc), Refusal::Length)?;
    refuse::when(refuse::bad_size(vc), Refusal::Outline)?;
    refuse::when(!range::all_near(outline), Refusal::Range)
}

// The doubled signed area of an outline, anticlockwise positive.
pub fn entry(outline: &[i64], vc: usize) -> AreaAnswer
    ensures { result ≡ area_answer outline.now vc }
{
    match refusal(outline, vc) {
        Err(refusal) => answer::area_refused(refusal.number()),
        Ok(()) => answer::area_found(sum::area_of(outline, vc)),
    }
}
