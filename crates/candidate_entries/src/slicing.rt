#![tactic(auto)]
// The entry over the candidates, without a hint.
ghost use Rattle.std.specs.Prelude.{◌≡◌};
ghost use Rattle.basis.specs.Number.{tolerance_of};
ghost use Rattle.cut.specs.Cuts.{held, given, case_of};
ghost use Rattle.candidate_write.specs.Lent.{Same};
ghost use Rattle.candidate_entries.specs.Candidates.{lent, Roomed, Dated, Sliced};

use crate::faults;
use basis::answer;
use basis::answer::CountAnswer;
use basis::number::Tolerance;
use candidate_faults::Lengths;
use candidate_lists::found;
use candidate_write::put::Lent;
use candidate_write::write;
use cut::arrival::{Case, Cuts};

// The candidates of an accepted call, with the edition beside each.
fn found_dated(
    cuts: &Cuts,
    splits: &[f64],
    edition: u32,
    lists: &mut Lent,
    cand_edition: &mut [u32],
) -> usize
    requires { Roomed (held cuts.now) splits.now (lent lists.old.at.now lists.old.cand.now lists.old.probe.now cand_edition.old) }
    ensures same { Same lists.old lists.new }
    ensures written { Dated (held cuts.now) splits.now edition (lent lists.old.at.now lists.old.cand.now lists.old.probe.now cand_edition.old) result (lent lists.new.at.now lists.new.cand.now lists.new.probe.now cand_edition.new) }
{
    let m = found::found(cuts, splits, lists);
    write::write_editions(cand_edition, m, cuts.case.count(), edition);
    m
}

// The candidates of the outline that the source names: the pieces between neighbouring cuts, and the walks from a segment's last cut to the next segment that has one.
// Beside each stands the outline's edition.
pub fn entry(
    outline: &[f64],
    vc: usize,
    edition: u32,
    source: u32,
    hit_at: &[usize],
    hit: &[f64],
    hits: usize,
    lap_at: &[usize],
    lap: &[f64],
    laps: usize,
    splits: &[f64],
    tolerance_x: f64,
    tolerance_y: f64,
    cand_at: &mut [usize],
    cand: &mut [f64],
    probe: &mut [f64],
    cand_edition: &mut [u32],
) -> CountAnswer
    ensures { Sliced (given outline.now hit_at.now hit.now lap_at.now lap.now (case_of vc source hits laps (tolerance_of tolerance_x tolerance_y))) splits.now edition (lent cand_at.old cand.old probe.old cand_edition.old) result (lent cand_at.new cand.new probe.new cand_edition.new) }
{
    let tolerance = Tolerance {
        x: tolerance_x,
        y: tolerance_y,
    };
    let case = Case {
        vc,
        source: source as usize,
        hits,
        laps,
        tolerance,
    };
    let cuts = Cuts {
        outline,
        hit_at,
        hit,
        lap_at,
        lap,
        case,
    };
    let lengths = Lengths {
        at: cand_at.len(),
        cand: cand.len(),
        probe: probe.len(),
        edition: cand_edition.len(),
    };
    match faults::refusal(&cuts, splits, lengths) {
        Err(refusal) => answer::count_refused(refusal.number()),
        Ok(()) => {
            let mut lists = Lent {
                at: cand_at,
                cand,
                probe,
            };
            answer::counted_as(found_dated(&cuts, splits, edition, &mut lists, cand_edition))
        }
    }
}
