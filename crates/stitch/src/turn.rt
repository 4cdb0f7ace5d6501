// Document 01: "A chain starts at the lowest unvisited slice." Each slice has its turn, in ascending number.
ghost use Rattle.stitch_run.specs.Stitch.{given_of};
ghost use Rattle.stitch_chain.specs.Ready.{SameTable};
ghost use Rattle.stitch.specs.Lent.{lists_of, SameMemory, TurnFit, Turned, TurnsFit, AllTurned};

use crate::lent::Lent;
use stitch_chain::rounds;
use stitch_chain::table::Table;
use stitch_run::plan::Slices;
use stitch_tally::tally;
use stitch_tally::tally::Tally;

// The turn of slice i: unless it has been visited it begins a chain, in the rest of the room, directly after the loops already finished.
fn take_turn(t: &mut Table, x: &mut Lent, s: &Slices, w: Tally, i: usize) -> Tally
    requires { TurnFit (given_of s.now) i t.old.points.now t.old.layout t.old.visited.now t.old.link.now w (lists_of x.old) }
    ensures table { SameTable t.old t.new }
    ensures same { SameMemory x.old x.new }
    ensures turned { Turned (given_of s.now) i t.old.points.now t.old.layout (lists_of x.old) result t.new.visited.now t.new.link.now (lists_of x.new) }
{
    if t.visited[i] {
        return w;
    }
    let a = 3 * w.done;
    let e = rounds::walk_chain(t, &mut x.room[a..], x.chain, s, i, w.rounds);
    tally::list_chain(x.chain_ends, x.chain_how, w.chains, e);
    tally::list_loop(x.ends, w, e)
}

// Every slice has its turn. Says what is finished at the end.
pub fn take_turns(t: &mut Table, x: &mut Lent, s: &Slices) -> Tally
    requires { TurnsFit (given_of s.now) t.old.points.now t.old.layout t.old.visited.now t.old.link.now (lists_of x.old) }
    ensures table { SameTable t.old t.new }
    ensures same { SameMemory x.old x.new }
    ensures turned { AllTurned (given_of s.now) (lists_of x.old) result (lists_of x.new) }
{
    let mut w = Tally {
        done: 0,
        loops: 0,
        chains: 0,
        rounds: 0,
    };
    for i in 0..s.plan.slices {
        w = take_turn(t, x, s, w, i);
    }
    w
}
