// Straight masks in whole microdegrees: candidates, inside answers and pruning in one call.
ghost use Rattle.basis.specs.Number.{tolerance_of};
ghost use Rattle.slice.specs.Ready.{rooms};
ghost use Rattle.straight_slices.specs.Slices.{given, job_of};
ghost use Rattle.straight_slices.specs.Rows.{SlicesLeft};

use basis::number::Tolerance;
use prune_entries::answer::PruneAnswer;
use straight_slices::job::Job;

// The slices of a mode of two straight masks: what `mask_candidates` of each outline, `mask_straight_winding` of each candidate in the other outline and `mask_prune` give in turn.
pub fn mask_straight_slices(
    mode: u32,
    opposing: u32,
    outline1: &[f64],
    vc1: usize,
    edition1: u32,
    outline2: &[f64],
    vc2: usize,
    edition2: u32,
    hit_at: &[usize],
    hit: &[f64],
    hits: usize,
    lap_at: &[usize],
    lap: &[f64],
    lap_edition: &[u32],
    laps: usize,
    tolerance_x: f64,
    tolerance_y: f64,
    slice_at: &mut [usize],
    slice: &mut [f64],
    slice_edition: &mut [u32],
) -> PruneAnswer
    ensures { SlicesLeft (given (job_of mode opposing vc1 edition1 vc2 edition2 hits laps (tolerance_of tolerance_x tolerance_y)) outline1.now outline2.now hit_at.now hit.now lap_at.now lap.now lap_edition.now) (rooms slice_at.old slice.old slice_edition.old) result (rooms slice_at.new slice.new slice_edition.new) }
{
    let tolerance = Tolerance {
        x: tolerance_x,
        y: tolerance_y,
    };
    let job = Job {
        mode,
        opposing,
        vc1,
        edition1,
        vc2,
        edition2,
        hits,
        laps,
        tolerance,
    };
    straight_slices::entry::entry(
        job,
        outline1,
        outline2,
        hit_at,
        hit,
        lap_at,
        lap,
        lap_edition,
        slice_at,
        slice,
        slice_edition,
    )
}
