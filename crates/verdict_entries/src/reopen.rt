#![tactic(auto, unfolding(crate::specs::ReopenEntry::new_edition))]
// Reopening: the verdict whatever the editions, and the edition that the slice has from then on.
ghost use Rattle.std.specs.Prelude.{◌≡◌};
ghost use Rattle.verdict_entries.specs.ReopenEntry.{new_edition, reopen_refused, reopen_answer};

use crate::validate;
use verdict::validate::validate_for_source;
use verdict_answer::answer;
use verdict_answer::answer::ReopenAnswer;
use view::data::ViewData;
use view_entries::input::View;

// The outline's edition where the verdict is 7, valid; else the slice keeps its own.
fn new_edition(verdict: u32, edition: u32, view_edition: u32) -> u32
    ensures { result ≡ new_edition verdict edition view_edition }
{
    if verdict == 7 { edition } else { view_edition }
}

fn refused(number: u32) -> ReopenAnswer
    ensures { result ≡ reopen_refused number }
{
    answer::reopen_record(answer::verdict_refused(number), 0)
}

// The verdict on a slice's view over the new outline, and the slice's edition from now on.
pub fn entry(
    outline: &[f64],
    vc: usize,
    edition: u32,
    view: View,
    view_edition: u32,
    start_on_segment: u32,
    end_on_segment: u32,
) -> ReopenAnswer
    ensures { result ≡ reopen_answer outline.now vc edition view view_edition start_on_segment end_on_segment }
{
    match validate::ask_refusal(outline, vc, view, start_on_segment, end_on_segment) {
        Err(refusal) => refused(refusal.number()),
        Ok(()) => {
            let v = ViewData::from(view);
            let a = answer::verdict_given(validate_for_source(
                outline,
                vc,
                v,
                start_on_segment == 1,
                end_on_segment == 1,
            ));
            answer::reopen_record(a, new_edition(a.verdict, edition, view_edition))
        }
    }
}
