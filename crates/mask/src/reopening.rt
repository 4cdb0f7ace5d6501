// Reopening of slices that were cut from an earlier edition of their outline.
ghost use Rattle.std.specs.Prelude.{◌≡◌};
ghost use Rattle.verdict_entries.specs.ReopenEntry.{reopen_answer};
ghost use Rattle.unmoved_entries.specs.UnmovedEntry.{unmoved_answer};

use unmoved_entries::answer::UnmovedAnswer;
use verdict_answer::answer::ReopenAnswer;
use view_entries::input::View;

// The verdict on a slice's view over the new outline, whatever the editions, and the edition that the slice has from now on: the outline's where the verdict is valid, else its own.
pub fn mask_reopen(
    outline: &[f64],
    vc: usize,
    edition: u32,
    view: View,
    view_edition: u32,
    start_on_segment: u32,
    end_on_segment: u32,
) -> ReopenAnswer
    ensures { result ≡ reopen_answer outline.now vc edition view view_edition start_on_segment end_on_segment }
{
    verdict_entries::reopen::entry(
        outline,
        vc,
        edition,
        view,
        view_edition,
        start_on_segment,
        end_on_segment,
    )
}

// Whether a view has the same vertices on the old outline and on the new, bit for bit, and the lowest number of one that differs.
pub fn mask_unmoved(
    outline1: &[f64],
    vc1: usize,
    outline2: &[f64],
    vc2: usize,
    view: View,
) -> UnmovedAnswer
    ensures { result ≡ unmoved_answer outline1.now vc1 outline2.now vc2 view }
{
    unmoved_entries::moving::entry(outline1, vc1, outline2, vc2, view)
}
