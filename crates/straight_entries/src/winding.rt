#![tactic(auto, unfolding(basis::specs::Refuse::first_of, crate::specs::WindingEntry::winding_refusal))]
// The entry `mask_straight_winding`.
ghost use Rattle.std.specs.Prelude.{◌≡◌};
ghost use Rattle.basis.specs.Refusals.{found};
ghost use Rattle.straight_entries.specs.WindingEntry.{winding_refusal, winding_answer};

use crate::answer::WindingAnswer;
use crate::{answer, range};
use basis::refuse;
use basis::refuse::Refusal;
use straight::sum;

fn refusal(outline: &[i64], vc: usize, x: i64, y: i64) -> Result<(), Refusal>
    ensures { found result ≡ winding_refusal outline.now vc x y }
{
    refuse::when(refuse::bad_length(outline.len(), 2, vc), Refusal::Length)?;
    refuse::when(refuse::bad_size(vc), Refusal::Outline)?;
    refuse::when(!range::all_near(outline), Refusal::Range)?;
    refuse::when(!range::near_probe(x), Refusal::Range)?;
    refuse::when(!range::near_probe(y), Refusal::Range)
}

// The winding number of an outline, x and y in turn, round a probe in doubled coordinates.
pub fn entry(outline: &[i64], vc: usize, x: i64, y: i64) -> WindingAnswer
    ensures { result ≡ winding_answer outline.now vc x y }
{
    match refusal(outline, vc, x, y) {
        Err(refusal) => answer::winding_refused(refusal.number()),
        Ok(()) => answer::winding_found(sum::winding_of(outline, vc, x, y)),
    }
}
