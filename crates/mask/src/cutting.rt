// Cuts and candidates.
ghost use Rattle.basis.specs.Number.{tolerance_of};
ghost use Rattle.cut.specs.Cuts.{given, case_of};
ghost use Rattle.cut_entries.specs.CutOrder.{CutOrdered};
ghost use Rattle.candidate_entries.specs.Candidates.{lent, Sliced};

use basis::answer::CountAnswer;

// The cuts of the outline that the source names, in their order: segment, overlap mark, number of arrival and point of each.
pub fn mask_cut_order(
    outline: &[f64],
    vc: usize,
    source: u32,
    hit_at: &[usize],
    hit: &[f64],
    hits: usize,
    lap_at: &[usize],
    lap: &[f64],
    laps: usize,
    tolerance_x: f64,
    tolerance_y: f64,
    cut_at: &mut [usize],
    cut: &mut [f64],
) -> CountAnswer
    ensures { CutOrdered (given outline.now hit_at.now hit.now lap_at.now lap.now (case_of vc source hits laps (tolerance_of tolerance_x tolerance_y))) cut_at.old cut.old result cut_at.new cut.new }
{
    cut_entries::order::entry(
        outline,
        vc,
        source,
        hit_at,
        hit,
        hits,
        lap_at,
        lap,
        laps,
        tolerance_x,
        tolerance_y,
        cut_at,
        cut,
    )
}

// The candidates of the outline that the source names: the pieces between neighbouring cuts, and the walks from a segment's last cut to the next segment that has one.
// Beside each stands the outline's edition.
pub fn mask_candidates(
    outline: &[f64],
    vc: usize,
    edition: u32,
    source: u32,
    hit_at: &[usize],
    hit: &[f64],
    hits: usize,
    lap_at: &[usize],
    lap: &[f64],
    laps: usize,
    splits: &[f64],
    tolerance_x: f64,
    tolerance_y: f64,
    cand_at: &mut [usize],
    cand: &mut [f64],
    probe: &mut [f64],
    cand_edition: &mut [u32],
) -> CountAnswer
    ensures { Sliced (given outline.now hit_at.now hit.now lap_at.now lap.now (case_of vc source hits laps (tolerance_of tolerance_x tolerance_y))) splits.now edition (lent cand_at.old cand.old probe.old cand_edition.old) result (lent cand_at.new cand.new probe.new cand_edition.new) }
{
    candidate_entries::slicing::entry(
        outline,
        vc,
        edition,
        source,
        hit_at,
        hit,
        hits,
        lap_at,
        lap,
        laps,
        splits,
        tolerance_x,
        tolerance_y,
        cand_at,
        cand,
        probe,
        cand_edition,
    )
}

// The same, with the order as `mask_cut_order` wrote it, three numbers a cut: a hint, which is looked at in one pass. Where it is not the order, or is of another length,
// the order is worked out. So the answer is that of `mask_candidates` for every hint.
pub fn mask_candidates_along(
    outline: &[f64],
    vc: usize,
    edition: u32,
    source: u32,
    hit_at: &[usize],
    hit: &[f64],
    hits: usize,
    lap_at: &[usize],
    lap: &[f64],
    laps: usize,
    cut_at: &[usize],
    splits: &[f64],
    tolerance_x: f64,
    tolerance_y: f64,
    cand_at: &mut [usize],
    cand: &mut [f64],
    probe: &mut [f64],
    cand_edition: &mut [u32],
) -> CountAnswer
    ensures { Sliced (given outline.now hit_at.now hit.now lap_at.now lap.now (case_of vc source hits laps (tolerance_of tolerance_x tolerance_y))) splits.now edition (lent cand_at.old cand.old probe.old cand_edition.old) result (lent cand_at.new cand.new probe.new cand_edition.new) }
{
    candidate_entries::along::entry(
        outline,
        vc,
        edition,
        source,
        hit_at,
        hit,
        hits,
        lap_at,
        lap,
        laps,
        cut_at,
        splits,
        tolerance_x,
        tolerance_y,
        cand_at,
        cand,
        probe,
        cand_edition,
    )
}
