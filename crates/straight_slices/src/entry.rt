// The entry: what is refused, then the slices.
ghost use Rattle.std.specs.Prelude.{◌≡◌};
ghost use Rattle.basis.specs.Refusals.{found};
ghost use Rattle.slice.specs.Ready.{rooms};
ghost use Rattle.straight_slices.specs.Slices.{given, handed};
ghost use Rattle.straight_slices.specs.Rows.{slices_refusal, SlicesLeft};

use crate::job::{Handed, Job};
use crate::{faults, slicing};
use basis::refuse::Refusal;
use prune::call;
use prune_entries::answer::PruneAnswer;
use prune_entries::{answer, faults as pruning};
use slice::write::Lent;

// All numbers. The need is worked out only where 1 to 7 and 18 found nothing.
fn refusal(h: &Handed, at: usize, shape: usize, edition: usize) -> Result<(), Refusal>
    ensures { found result ≡ slices_refusal (handed h.now) at shape edition }
{
    faults::input_refusal(h)?;
    let need = call::need_of(h.job.most_call());
    pruning::room_refusal(need, at, shape, edition)
}

// The slices of a mode of two straight masks: the candidates of each outline that stay, then the overlaps for each outline. The lists come
// one by one, as `mask` hands over what C has.
pub fn entry(
    job: Job,
    outline1: &[f64],
    outline2: &[f64],
    hit_at: &[usize],
    hit: &[f64],
    lap_at: &[usize],
    lap: &[f64],
    lap_edition: &[u32],
    slice_at: &mut [usize],
    slice: &mut [f64],
    slice_edition: &mut [u32],
) -> PruneAnswer
    ensures { SlicesLeft (given job outline1.now outline2.now hit_at.now hit.now lap_at.now lap.now lap_edition.now) (rooms slice_at.old slice.old slice_edition.old) result (rooms slice_at.new slice.new slice_edition.new) }
{
    let h = Handed {
        job,
        outline1,
        outline2,
        hit_at,
        hit,
        lap_at,
        lap,
        lap_edition,
    };
    match refusal(&h, slice_at.len(), slice.len(), slice_edition.len()) {
        Err(refusal) => answer::prune_refused(refusal.number()),
        Ok(()) => {
            let mut lent = Lent {
                at: slice_at,
                shape: slice,
                edition: slice_edition,
            };
            answer::prune_given(slicing::sliced(&h, job.most_call(), &mut lent))
        }
    }
}
