#![tactic(auto, unfolding(basis::specs::Refuse::first_of, crate::specs::EntireEntry::entire_refusal))]
// The entry `mask_from_entire_pline`: its refusals and its answer.
ghost use Rattle.std.specs.Prelude.{◌≡◌};
ghost use Rattle.basis.specs.Refusals.{found};
ghost use Rattle.view_entries.specs.EntireEntry.{entire_refusal, entire_answer};

use crate::answer;
use crate::answer::ViewAnswer;
use basis::refuse::Refusal;
use basis::{number, refuse};
use view::create;

fn refusal(outline: &[f64], vc: usize, closed: u32) -> Result<(), Refusal>
    ensures { found result ≡ entire_refusal outline.now vc closed }
{
    refuse::when(refuse::bad_length(outline.len(), 3, vc), Refusal::Length)?;
    refuse::when(refuse::bad_size(vc), Refusal::Outline)?;
    refuse::when(refuse::bad_choice(closed), Refusal::Code)?;
    refuse::when(!number::all_in_range(outline), Refusal::Number)
}

// The view of a whole outline, closed or open.
pub fn entry(outline: &[f64], vc: usize, closed: u32) -> ViewAnswer
    ensures { result ≡ entire_answer outline.now vc closed }
{
    match refusal(outline, vc, closed) {
        Err(refusal) => answer::view_refused(refusal.number()),
        Ok(()) => answer::view_made(create::from_entire_pline(outline, vc, closed == 1)),
    }
}
