// The cuts in their order, written to lent room.
ghost use Rattle.std.specs.Prelude.{◌≡◌, [], ◌∷◌};
ghost use Rattle.std.proofs.lemmas.List.Edits.{sets};
ghost use Rattle.basis.specs.Choice.{code_of};
ghost use Rattle.basis.specs.Room.{RoomFor};
ghost use Rattle.cut.specs.Cuts.{held};
ghost use Rattle.cut.specs.Order.{Written};
ghost use Rattle.cut_order.specs.Write.{Known, WriteRoom};

use crate::order;
use cut::arrival::{Cut, Cuts};
use outline::write;

// Segment, mark and arrival number of a cut, from place `at` on.
#[tactic(auto, using(crate::proofs::Writing::writing))]
fn put_numbers(room: &mut [usize], at: usize, c: Cut, n: usize)
    requires { RoomFor room.old at 3 }
    ensures { room.new ≡ sets room.old at (c.segment ∷ code_of c.mark ∷ n ∷ []) }
{
    write::put_pair(room, at, c.segment, usize::from(c.mark));
    room[at + 2] = n;
}

// Every cut, in the order that is known.
#[tactic(auto, using(crate::proofs::Writing::writing))]
fn write_items(cuts: &Cuts, order: &[usize], cut_at: &mut [usize], cut: &mut [f64])
    requires { Known (held cuts.now) order.now cut_at.old cut.old }
    ensures { Written (held cuts.now) cut_at.old cut.old cut_at.new cut.new }
{
    let call = *cuts;
    for i in 0..call.case.count() {
        let n = order[i];
        let c = call.cut_of(n);
        put_numbers(cut_at, 3 * i, c, n);
        write::put_point(cut, 2 * i, c.point);
    }
}

// The cuts of one outline in their order, with their segments, marks, arrival numbers and points. The list lent beside the rooms is for the order, one place a cut.
// The rooms themselves hold what the cuts are sorted by, until the cuts are written into them.
pub fn write_order(cuts: &Cuts, order: &mut [usize], cut_at: &mut [usize], cut: &mut [f64])
    requires { WriteRoom (held cuts.now) order.old cut_at.old cut.old }
    ensures { Written (held cuts.now) cut_at.old cut.old cut_at.new cut.new }
{
    order::order_cuts(cuts, cut_at, cut, order);
    write_items(cuts, order, cut_at, cut);
}
