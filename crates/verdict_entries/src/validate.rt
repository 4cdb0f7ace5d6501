#![tactic(auto, unfolding(basis::specs::Refuse::first_of, crate::specs::ValidateEntry::ask_refusal, crate::specs::ValidateEntry::start_fault))]
// The entry `mask_validate_for_source`, and the refusals that it shares with `mask_reopen`.
ghost use Rattle.std.specs.Prelude.{◌≡◌};
ghost use Rattle.basis.specs.Refusals.{found};
ghost use Rattle.verdict_entries.specs.ValidateEntry.{start_fault, ask_refusal, validate_refusal, validate_answer};

use basis::refuse::Refusal;
use basis::{number, refuse, sizes};
use verdict::validate;
use verdict_answer::answer;
use verdict_answer::answer::VerdictAnswer;
use view::data::ViewData;
use view_entries::input;
use view_entries::input::View;

// Number 6, but not on an outline that is too short.
fn bad_start(start: usize, vc: usize) -> bool
    ensures { result ≡ start_fault vc start }
{
    2 <= vc && vc <= start
}

// What a verdict asks for, whatever the editions.
pub(crate) fn ask_refusal(
    outline: &[f64],
    vc: usize,
    v: View,
    start_on: u32,
    end_on: u32,
) -> Result<(), Refusal>
    ensures { found result ≡ ask_refusal outline.now vc v start_on end_on }
{
    refuse::when(refuse::bad_length(outline.len(), 3, vc), Refusal::Length)?;
    refuse::when(sizes::MOST_VERTICES < vc, Refusal::Outline)?;
    refuse::when(refuse::bad_choice(v.inverted_direction), Refusal::Code)?;
    refuse::when(refuse::bad_choice(start_on), Refusal::Code)?;
    refuse::when(refuse::bad_choice(end_on), Refusal::Code)?;
    refuse::when(!number::all_in_range(outline), Refusal::Number)?;
    refuse::when(input::bad_view_numbers(v), Refusal::Number)?;
    refuse::when(bad_start(v.start_index, vc), Refusal::Index)
}

// The same, then 14: the view was cut from another edition of the outline.
fn refusal(
    outline: &[f64],
    vc: usize,
    edition: u32,
    v: View,
    view_edition: u32,
    start_on: u32,
    end_on: u32,
) -> Result<(), Refusal>
    ensures { found result ≡ validate_refusal outline.now vc edition v view_edition start_on end_on }
{
    ask_refusal(outline, vc, v, start_on, end_on)?;
    refuse::when(view_edition != edition, Refusal::Edition)
}

// The verdict on view data over an outline, with the host's answers whether the start and the end lie on their segments.
pub fn entry(
    outline: &[f64],
    vc: usize,
    edition: u32,
    view: View,
    view_edition: u32,
    start_on_segment: u32,
    end_on_segment: u32,
) -> VerdictAnswer
    ensures { result ≡ validate_answer outline.now vc edition view view_edition start_on_segment end_on_segment }
{
    match refusal(
        outline,
        vc,
        edition,
        view,
        view_edition,
        start_on_segment,
        end_on_segment,
    ) {
        Err(refusal) => answer::verdict_refused(refusal.number()),
        Ok(()) => {
            let v = ViewData::from(view);
            answer::verdict_given(validate::validate_for_source(
                outline,
                vc,
                v,
                start_on_segment == 1,
                end_on_segment == 1,
            ))
        }
    }
}
