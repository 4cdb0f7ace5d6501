#![tactic(auto, unfolding(basis::specs::Refuse::first_from, basis::specs::Refuse::or_else, crate::specs::Candidates::later_rows, cut_entries::specs::CutRows::list_rows, cut_entries::specs::CutRows::value_rows, cut_entries::specs::CutRows::index_rows))]
// The refusals of the entries over the candidates: the whole table, part by part.
ghost use Rattle.std.specs.Prelude.{◌≡◌};
ghost use Rattle.basis.specs.Refuse.{first_from};
ghost use Rattle.basis.specs.Refusals.{found};
ghost use Rattle.cut.specs.Cuts.{held};
ghost use Rattle.candidate_entries.specs.Candidates.{candidates_rows};

use basis::refuse::Refusal;
use candidate_faults::Lengths;
use cut::arrival::Cuts;
use cut_entries::faults;

// All numbers. There is no number 10 (request K12). Inline in both entries: what is handed to a function that two share goes through memory.
#[inline(always)]
pub(crate) fn refusal(cuts: &Cuts, splits: &[f64], lent: Lengths) -> Result<(), Refusal>
    ensures { found result ≡ first_from 0 (candidates_rows (held cuts.now) splits.now lent) }
{
    faults::list_refusal(cuts)?;
    let count = cuts.case.count();
    candidate_faults::split_length_refusal(count, splits.len())?;
    faults::value_refusal(cuts)?;
    candidate_faults::split_refusal(splits)?;
    faults::index_refusal(cuts)?;
    candidate_faults::room_refusal(count, lent)
}
