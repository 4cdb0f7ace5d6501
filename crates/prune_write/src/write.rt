// The slices of a mode, written into lent room.
ghost use Rattle.slice.specs.Ready.{rooms_in, Same};
ghost use Rattle.prune.specs.Prune.{cands_in, laps_in, kept_to, laps_to};
ghost use Rattle.prune_write.specs.Ready.{KeepFit, LapsFit, BothFit, TwiceFit, BothWritten, TwiceWritten, FinishFit, Finished};
ghost use Rattle.prune_put.specs.Ready.{Wrote};

use prune::call::Call;
use prune::counts::{Ends, Pruned};
use prune::lists::{Cands, Handed, Overlaps};
use prune::mode::Part;
use prune::{call, counts, mode};
use prune_put::put;
use slice::write::Lent;

// Writes the candidates of one outline that stay, as slices from number m on, and says where they end.
#[tactic(auto, using(crate::specs::WriteLaws::keeping))]
pub fn write_kept(cands: &Cands, count: usize, part: Part, lent: &mut Lent, m: usize) -> usize
    requires { KeepFit (cands_in cands.now) count (rooms_in lent.old) m }
    ensures same { Same lent.old lent.new }
    ensures wrote { Wrote (kept_to (cands_in cands.now) part count) count (rooms_in lent.old) m result (rooms_in lent.new) }
{
    let mut n = m;
    for k in 0..count {
        if cands.inside[k] != part.keep {
            continue;
        }
        put::put_cand(cands, part, k, lent, n);
        n += 1;
    }
    n
}

// Writes the overlaps for outline 1 or for outline 2, as slices from number m on, and says where they end. No twin of write_kept: none of them is tested.
#[tactic(auto, using(crate::specs::WriteLaws::lapping))]
fn write_laps(laps: &Overlaps, count: usize, first: bool, lent: &mut Lent, m: usize) -> usize
    requires { LapsFit (laps_in laps.now) count (rooms_in lent.old) m }
    ensures same { Same lent.old lent.new }
    ensures wrote { Wrote (laps_to (laps_in laps.now) first count) count (rooms_in lent.old) m result (rooms_in lent.new) }
{
    let mut n = m;
    for j in 0..count {
        put::put_lap(laps, first, j, lent, n);
        n += 1;
    }
    n
}

// Writes what stays of both outlines, from the front, and says where each ends.
pub fn write_both(g: &Handed, lent: &mut Lent) -> Ends
    requires { BothFit g.now.call (cands_in g.now.first) (cands_in g.now.second) (rooms_in lent.old) }
    ensures same { Same lent.old lent.new }
    ensures wrote { BothWritten g.now.call (cands_in g.now.first) (cands_in g.now.second) (rooms_in lent.old) result (rooms_in lent.new) }
{
    let call = g.call;
    let parts = mode::parts_of(call.mode, call.opposing == 1);
    let first = write_kept(&g.first, call.count1, parts.first, lent, 0);
    let second = write_kept(&g.second, call.count2, parts.second, lent, first);
    Ends { first, second }
}

// Writes the overlaps for outline 1 and then for outline 2, from slice number m on.
fn write_twice(laps: &Overlaps, count: usize, lent: &mut Lent, m: usize) -> Ends
    requires { TwiceFit (laps_in laps.now) count (rooms_in lent.old) m }
    ensures same { Same lent.old lent.new }
    ensures wrote { TwiceWritten (laps_in laps.now) count (rooms_in lent.old) m result (rooms_in lent.new) }
{
    let first = write_laps(laps, count, true, lent, m);
    let second = write_laps(laps, count, false, lent, first);
    Ends { first, second }
}

// Behind the kept of both outlines: the overlaps for 1, the overlaps for 2, then zero up to the need. Says how many slices there are, and where their
// classes begin.
pub fn finish(call: Call, kept: Ends, laps: &Overlaps, lent: &mut Lent) -> Pruned
    requires { FinishFit call kept (laps_in laps.now) (rooms_in lent.old) }
    ensures same { Same lent.old lent.new }
    ensures finished { Finished call kept (laps_in laps.now) (rooms_in lent.old) result (rooms_in lent.new) }
{
    let twice = write_twice(laps, call.laps, lent, kept.second);
    put::clear_rest(lent, twice.second, call::need_of(call));
    counts::pruned_at(kept, twice)
}
