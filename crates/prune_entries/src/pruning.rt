// The entry `mask_prune`: its refusals and its answer.
ghost use Rattle.std.specs.Prelude.{◌≡◌};
ghost use Rattle.basis.specs.Refusals.{found};
ghost use Rattle.slice.specs.Ready.{rooms};
ghost use Rattle.prune.specs.Prune.{given, cands, overlaps, held};
ghost use Rattle.prune_entries.specs.PruneEntry.{prune_refusal, PruneLeft};

use crate::answer::PruneAnswer;
use crate::{answer, faults};
use basis::refuse::Refusal;
use prune::call;
use prune::call::Call;
use prune::lists::{Cands, Handed, Overlaps};
use prune_write::write;
use slice::write::Lent;

// All numbers. The need is worked out only where 1 to 7 found nothing.
fn refusal(g: &Handed, at: usize, shape: usize, edition: usize) -> Result<(), Refusal>
    ensures { found result ≡ prune_refusal (held g.now) at shape edition }
{
    faults::input_refusal(g)?;
    faults::room_refusal(call::need_of(g.call), at, shape, edition)
}

// The slices of a mode: the candidates of each outline that stay, then the overlaps for each outline.
pub fn entry(
    c: Call,
    cand_at1: &[usize],
    cand1: &[f64],
    cand_edition1: &[u32],
    inside1: &[u8],
    cand_at2: &[usize],
    cand2: &[f64],
    cand_edition2: &[u32],
    inside2: &[u8],
    lap_at: &[usize],
    lap: &[f64],
    lap_edition: &[u32],
    slice_at: &mut [usize],
    slice: &mut [f64],
    slice_edition: &mut [u32],
) -> PruneAnswer
    ensures { PruneLeft (given c (cands cand_at1.now cand1.now cand_edition1.now inside1.now) (cands cand_at2.now cand2.now cand_edition2.now inside2.now) (overlaps lap_at.now lap.now lap_edition.now)) (rooms slice_at.old slice.old slice_edition.old) result (rooms slice_at.new slice.new slice_edition.new) }
{
    let g = Handed {
        call: c,
        first: Cands {
            at: cand_at1,
            shape: cand1,
            edition: cand_edition1,
            inside: inside1,
        },
        second: Cands {
            at: cand_at2,
            shape: cand2,
            edition: cand_edition2,
            inside: inside2,
        },
        laps: Overlaps {
            at: lap_at,
            shape: lap,
            edition: lap_edition,
        },
    };
    match refusal(&g, slice_at.len(), slice.len(), slice_edition.len()) {
        Err(refusal) => answer::prune_refused(refusal.number()),
        Ok(()) => {
            let mut lent = Lent {
                at: slice_at,
                shape: slice,
                edition: slice_edition,
            };
            let kept = write::write_both(&g, &mut lent);
            answer::prune_given(write::finish(c, kept, &g.laps, &mut lent))
        }
    }
}
