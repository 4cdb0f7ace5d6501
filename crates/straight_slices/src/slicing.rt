// The slices of an accepted call.
ghost use Rattle.std.specs.Prelude.{◌≡◌};
ghost use Rattle.slice.specs.Ready.{rooms_in, Same};
ghost use Rattle.prune_write.specs.Ready.{BothWritten, WrittenTo};
ghost use Rattle.straight_slices.specs.Slices.{handed, first_side, second_side, first_cands, second_cands, pruning, need_all};
ghost use Rattle.straight_slices.specs.Ready.{SidesRoom, Accepted};

use crate::job::{Handed, Job};
use prune::call::Call;
use prune::counts::{Ends, Pruned};
use prune::lists::Overlaps;
use prune::mode;
use prune::mode::Part;
use prune_write::write;
use slice::write::Lent;
use straight_kept::keeping::kept;
use straight_side::keeping::Side;

// The turn of outline 1: its slices stand in front.
fn first_side(job: Job, part: Part) -> Side
    ensures { result ≡ first_side job part }
{
    Side {
        other_vc: job.vc2,
        edition: job.edition1,
        part,
        from: 0,
    }
}

// The turn of outline 2: its slices stand behind those of outline 1.
fn second_side(job: Job, part: Part, from: usize) -> Side
    ensures { result ≡ second_side job part from }
{
    Side {
        other_vc: job.vc1,
        edition: job.edition2,
        part,
        from,
    }
}

// What stays of both outlines, from the front, and where each ends. The overlaps' editions are not looked at here.
fn both_sides(h: &Handed, lent: &mut Lent) -> Ends
    requires { SidesRoom (handed h.now) (rooms_in lent.old) }
    ensures same { Same lent.old lent.new }
    ensures written { BothWritten (pruning (handed h.now)).call (first_cands (handed h.now)) (second_cands (handed h.now)) (rooms_in lent.old) result (rooms_in lent.new) }
{
    let parts = mode::parts_of(h.job.mode, h.job.opposing == 1);
    let one = first_side(h.job, parts.first);
    let own = h.first_cuts();
    let a = kept(&own, h.outline2, one, lent);
    let two = second_side(h.job, parts.second, a);
    let others = h.second_cuts();
    let b = kept(&others, h.outline1, two, lent);
    Ends {
        first: a,
        second: b,
    }
}

// The slices of an accepted call: what stays of both outlines, the overlaps twice, and zero up to the need.
pub(crate) fn sliced(h: &Handed, call: Call, lent: &mut Lent) -> Pruned
    requires { Accepted (handed h.now) call (rooms_in lent.old) }
    ensures same { Same lent.old lent.new }
    ensures written { WrittenTo (pruning (handed h.now)) (need_all h.now.job) (rooms_in lent.old) result (rooms_in lent.new) }
{
    let kept = both_sides(h, lent);
    let laps = Overlaps {
        at: h.lap_at,
        shape: h.lap,
        edition: h.lap_edition,
    };
    write::finish(call, kept, &laps, lent)
}
