#![tactic(auto, using(crate::proofs::Finding::fronts))]
// The candidates of an accepted call: the cuts are put in order, then walked, with working lists of the size that fits.
ghost use Rattle.std.specs.Prelude.{◌≡◌, ◌≤◌, ◌*◌};
ghost use Rattle.cut.specs.Cuts.{held};
ghost use Rattle.candidate.specs.Ready.{Written};
ghost use Rattle.candidate_write.specs.Lent.{lent, Same};
ghost use Rattle.candidate_lists.specs.Lists.{along_cuts, Accepted, FoundRoom, Few};

use crate::front;
use basis::sizes::MOST_CANDIDATES;
use candidate::at_cut::Along;
use candidate_write::put::Lent;
use cut::arrival::Cuts;

// The candidates of an accepted call, by lists for their order and for the cuts in it: they are put in order, then walked.
fn found_with(
    cuts: &Cuts,
    splits: &[f64],
    order: &mut [usize],
    cut_at: &mut [usize],
    cut: &mut [f64],
    lists: &mut Lent,
) -> usize
    requires { FoundRoom (held cuts.now) splits.now (lent lists.old) order.old cut_at.old cut.old }
    ensures same { Same lists.old lists.new }
    ensures written { Written (along_cuts (held cuts.now) splits.now) (lent lists.old) result (lent lists.new) }
{
    cut_order::write::write_order(cuts, order, cut_at, cut);
    let along = Along {
        cuts: *cuts,
        cut_at,
        splits,
    };
    front::walked(&along, lists)
}

// The same with working lists for N cuts: for few they cost little to set up.
fn found_by<const N: usize, const NUMBERS: usize, const POINTS: usize>(
    cuts: &Cuts,
    splits: &[f64],
    lists: &mut Lent,
) -> usize
    requires room { Few N (held cuts.now) splits.now (lent lists.old) }
    requires most { N ≤ MOST_CANDIDATES }
    requires numbers { NUMBERS ≡ 3 * N }
    requires points { POINTS ≡ 2 * N }
    ensures same { Same lists.old lists.new }
    ensures written { Written (along_cuts (held cuts.now) splits.now) (lent lists.old) result (lent lists.new) }
{
    let mut order = [0usize; N];
    let mut cut_at = [0usize; NUMBERS];
    let mut cut = [0.0f64; POINTS];
    found_with(cuts, splits, &mut order, &mut cut_at, &mut cut, lists)
}

// The candidates of an accepted call.
pub fn found(cuts: &Cuts, splits: &[f64], lists: &mut Lent) -> usize
    requires { Accepted (held cuts.now) splits.now (lent lists.old) }
    ensures same { Same lists.old lists.new }
    ensures written { Written (along_cuts (held cuts.now) splits.now) (lent lists.old) result (lent lists.new) }
{
    let count = cuts.case.count();
    if count <= 8 {
        found_by::<8, 24, 16>(cuts, splits, lists)
    } else if count <= 64 {
        found_by::<64, 192, 128>(cuts, splits, lists)
    } else if count <= 256 {
        found_by::<256, 768, 512>(cuts, splits, lists)
    } else {
        found_by::<MOST_CANDIDATES, 2304, 1536>(cuts, splits, lists)
    }
}
