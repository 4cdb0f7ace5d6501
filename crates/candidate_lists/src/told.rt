#![tactic(auto, using(crate::proofs::Finding::fronts))]
// The candidates of an accepted call along a hint, the order as a caller says it, where that is the order.
ghost use Rattle.cut.specs.Cuts.{held};
ghost use Rattle.candidate.specs.Ready.{Written};
ghost use Rattle.candidate_write.specs.Lent.{lent, Same};
ghost use Rattle.candidate_lists.specs.Lists.{along_cuts, Accepted};

use crate::found;
use candidate::at_cut::Along;
use candidate_write::put::Lent;
use candidate_write::write;
use cut_order::along;

// The candidates of an accepted call: along the hint, or, where that is not the order, along the order that is found. A hint that is the order needs no working list.
pub fn sought(told: &Along, lists: &mut Lent) -> usize
    requires { Accepted (held told.now.cuts) told.now.splits.now (lent lists.old) }
    ensures same { Same lists.old lists.new }
    ensures written { Written (along_cuts (held told.now.cuts) told.now.splits.now) (lent lists.old) result (lent lists.new) }
{
    if along::is_along(&told.cuts, told.cut_at) {
        write::write_candidates(told, lists)
    } else {
        found::found(&told.cuts, told.splits, lists)
    }
}
