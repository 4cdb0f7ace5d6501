// A chain: round after round, from its first slice to its end.
ghost use Rattle.stitch_run.specs.Stitch.{given_of};
ghost use Rattle.stitch_chain.specs.Ready.{Placing, Placed, SameTable, Opening, Walked};

use crate::table::Table;
use stitch_answer::answer::Round;
use stitch_round::step;
use stitch_round::step::Step;
use stitch_run::plan::Slices;
use stitch_slices::slices;
use stitch_tally::tally::ChainEnd;

// Marks slice j and adds its vertices to a chain of n. Says how many it has now.
fn place(visited: &mut [bool], room: &mut [f64], n: usize, s: &Slices, j: usize) -> usize
    requires { Placing (given_of s.now) j visited.old room.old n }
    ensures { Placed (given_of s.now) j n visited.old room.old result visited.new room.new }
{
    visited[j] = true;
    slices::add_slice(room, n, s, j)
}

// The chain that begins with slice `first`, in a room that begins with it. Each round lists its slice, after the rounds of the chains before.
pub fn walk_chain(
    t: &mut Table,
    room: &mut [f64],
    chain: &mut [usize],
    s: &Slices,
    first: usize,
    before: usize,
) -> ChainEnd
    requires { Opening (given_of s.now) first t.old.points.now t.old.visited.now t.old.link.now t.old.layout room.old chain.old before }
    ensures same { SameTable t.old t.new }
    ensures walked { Walked (given_of s.now) first t.old.points.now t.old.layout room.old chain.old result t.new.visited.now t.new.link.now room.new chain.new }
{
    let points = t.points;
    let layout = t.layout;
    // Taken out of the table: a call that reads one list of it while another is lent is not proved.
    let visited = &mut *t.visited;
    let link = &mut *t.link;
    let mut n = place(visited, room, 0, s, first);
    let mut current = first;
    let mut rounds = before;
    loop {
        chain[rounds] = current;
        rounds += 1;
        let round = Round {
            points,
            visited,
            layout,
            first,
            current,
            plan: s.plan,
        };
        match step::next_of(&round, link, room, n) {
            Step::Onto(j) => {
                n = place(visited, room, n - 1, s, j);
                current = j;
            }
            Step::Ends(how) => {
                return ChainEnd {
                    verts: n,
                    rounds,
                    how,
                };
            }
        }
    }
}
