// Pruning.
ghost use Rattle.slice.specs.Ready.{rooms};
ghost use Rattle.prune.specs.Prune.{given, call_of, cands, overlaps};
ghost use Rattle.prune_entries.specs.PruneEntry.{PruneLeft};

use prune::call::Call;
use prune_entries::answer::PruneAnswer;

// The slices of a mode: the candidates of each outline that stay, then the overlaps for each outline. Each has the edition of what it comes from.
pub fn mask_prune(
    mode: u32,
    opposing: u32,
    vc1: usize,
    vc2: usize,
    cand_at1: &[usize],
    cand1: &[f64],
    cand_edition1: &[u32],
    inside1: &[u8],
    count1: usize,
    cand_at2: &[usize],
    cand2: &[f64],
    cand_edition2: &[u32],
    inside2: &[u8],
    count2: usize,
    lap_at: &[usize],
    lap: &[f64],
    lap_edition: &[u32],
    laps: usize,
    slice_at: &mut [usize],
    slice: &mut [f64],
    slice_edition: &mut [u32],
) -> PruneAnswer
    ensures { PruneLeft (given (call_of mode opposing vc1 vc2 count1 count2 laps) (cands cand_at1.now cand1.now cand_edition1.now inside1.now) (cands cand_at2.now cand2.now cand_edition2.now inside2.now) (overlaps lap_at.now lap.now lap_edition.now)) (rooms slice_at.old slice.old slice_edition.old) result (rooms slice_at.new slice.new slice_edition.new) }
{
    let call = Call {
        mode,
        opposing,
        vc1,
        vc2,
        count1,
        count2,
        laps,
    };
    prune_entries::pruning::entry(
        call,
        cand_at1,
        cand1,
        cand_edition1,
        inside1,
        cand_at2,
        cand2,
        cand_edition2,
        inside2,
        lap_at,
        lap,
        lap_edition,
        slice_at,
        slice,
        slice_edition,
    )
}
