#![tactic(auto, using(crate::proofs::Writing::uptos, crate::proofs::Writing::wholes))]
// The candidates of one outline, written into lent room.
ghost use Rattle.std.specs.Prelude.{◌≡◌, replicate};
ghost use Rattle.basis.specs.Room.{room_of, Stretch};
ghost use Rattle.cut.specs.Cuts.{held};
ghost use Rattle.candidate.specs.Ready.{Written};
ghost use Rattle.candidate.specs.Steps.{Items, ClearFit, Cleared};
ghost use Rattle.candidate.specs.Told.{told, ToldReady};
ghost use Rattle.candidate_write.specs.Lent.{lent, Same};

use crate::put::Lent;
use basis::room;
use candidate::at_cut::Along;

// Writes the candidates in order of places, and says how many there are.
fn write_items(along: &Along, lists: &mut Lent) -> usize
    requires { ToldReady (held along.now.cuts) along.now.cut_at.now along.now.splits.now (lent lists.old) }
    ensures same { Same lists.old lists.new }
    ensures written { Items (told along.now) (lent lists.old) result (lent lists.new) }
{
    let mut m = 0;
    for p in 0..along.cuts.case.count() {
        let c = along.candidate_at(p);
        m = lists.put(m, c);
    }
    m
}

// Sets each list to zero from candidate number m up to the need.
fn clear_rest(lists: &mut Lent, m: usize, need: usize)
    requires { ClearFit (lent lists.old) m need }
    ensures same { Same lists.old lists.new }
    ensures written { Cleared (lent lists.old) m need (lent lists.new) }
{
    room::fill(lists.at, 2 * m, 2 * need, 0);
    room::fill(lists.cand, 6 * m, 6 * need, 0.0);
    room::fill(lists.probe, 6 * m, 6 * need, 0.0);
}

// Writes the candidates along the order that the list tells, then zero up to one candidate per cut, and says how many candidates there are.
pub fn write_candidates(along: &Along, lists: &mut Lent) -> usize
    requires { ToldReady (held along.now.cuts) along.now.cut_at.now along.now.splits.now (lent lists.old) }
    ensures same { Same lists.old lists.new }
    ensures written { Written (told along.now) (lent lists.old) result (lent lists.new) }
{
    let m = write_items(along, lists);
    clear_rest(lists, m, along.cuts.case.count());
    m
}

// Writes the outline's edition beside each of m candidates, then zero up to the need.
pub fn write_editions(cand_edition: &mut [u32], m: usize, need: usize, edition: u32)
    requires { Stretch cand_edition.old m need }
    ensures { cand_edition.new ≡ room_of 0 1 need (replicate m edition) cand_edition.old }
{
    room::fill(cand_edition, 0, m, edition);
    room::fill(cand_edition, m, need, 0);
}
