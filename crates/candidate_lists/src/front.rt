#![tactic(auto, using(crate::proofs::Finding::fronts))]
// The candidates along an order that stands in front of its list.
ghost use Rattle.cut.specs.Cuts.{held};
ghost use Rattle.candidate.specs.Ready.{Written};
ghost use Rattle.candidate_write.specs.Lent.{lent, Same};
ghost use Rattle.candidate_lists.specs.Lists.{along_cuts, InFront};

use candidate::at_cut::Along;
use candidate_write::put::Lent;
use candidate_write::write;

// The candidates along the order in front of the list.
pub(crate) fn walked(along: &Along, lists: &mut Lent) -> usize
    requires { InFront (held along.now.cuts) along.now.cut_at.now along.now.splits.now (lent lists.old) }
    ensures same { Same lists.old lists.new }
    ensures written { Written (along_cuts (held along.now.cuts) along.now.splits.now) (lent lists.old) result (lent lists.new) }
{
    let numbers = 3 * along.cuts.case.count();
    let front = Along {
        cuts: along.cuts,
        cut_at: &along.cut_at[..numbers],
        splits: along.splits,
    };
    write::write_candidates(&front, lists)
}
