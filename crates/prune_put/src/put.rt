#![tactic(auto, using(crate::proofs::Placing::placed_as))]
// One slice written into lent room, and the rest of the room cleared.
ghost use Rattle.std.specs.Prelude.{[], ◌∷◌, ◌+◌};
ghost use Rattle.slice.specs.Ready.{rooms_in, Same, Placed};
ghost use Rattle.prune.specs.Prune.{cands_in, laps_in, cand_slice, lap_slice};
ghost use Rattle.prune_put.specs.Ready.{ItemFit, ClearFit, Cleared};

use basis::room;
use prune::codes;
use prune::lists::{Cands, Overlaps};
use prune::mode::Part;
use slice::data::{CODE_WIDTH, SHAPE_WIDTH};
use slice::write::Lent;
use slice::{read, write};

// Writes candidate number k as slice number n.
pub fn put_cand(cands: &Cands, part: Part, k: usize, lent: &mut Lent, n: usize)
    requires { ItemFit 2 cands.now.at.now cands.now.shape.now cands.now.edition.now k (rooms_in lent.old) n }
    ensures same { Same lent.old lent.new }
    ensures placed { Placed (cand_slice (cands_in cands.now) part k ∷ []) (rooms_in lent.old) n (n + 1) (rooms_in lent.new) }
{
    let c = codes::cand_codes(cands.at, part, k);
    let s = read::shape_at(cands.shape, k);
    write::put_slice(c, s, cands.edition[k], lent, n);
}

// Writes overlap number j, for outline 1 or for outline 2, as slice number n.
pub fn put_lap(laps: &Overlaps, first: bool, j: usize, lent: &mut Lent, n: usize)
    requires { ItemFit 7 laps.now.at.now laps.now.shape.now laps.now.edition.now j (rooms_in lent.old) n }
    ensures same { Same lent.old lent.new }
    ensures placed { Placed (lap_slice (laps_in laps.now) first j ∷ []) (rooms_in lent.old) n (n + 1) (rooms_in lent.new) }
{
    let c = codes::lap_codes(laps.at, first, j);
    let s = read::shape_at(laps.shape, j);
    write::put_slice(c, s, laps.edition[j], lent, n);
}

// Sets each list to zero from slice number n up to the need.
pub fn clear_rest(lent: &mut Lent, n: usize, need: usize)
    requires { ClearFit (rooms_in lent.old) n need }
    ensures same { Same lent.old lent.new }
    ensures cleared { Cleared (rooms_in lent.old) n need (rooms_in lent.new) }
{
    room::fill(lent.at, CODE_WIDTH * n, CODE_WIDTH * need, 0);
    room::fill(lent.shape, SHAPE_WIDTH * n, SHAPE_WIDTH * need, 0.0);
    room::fill(lent.edition, n, need, 0);
}
