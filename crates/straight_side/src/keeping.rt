// The slices of one outline: those of its candidates that stay.
ghost use Rattle.cut.specs.Cuts.{held};
ghost use Rattle.slice.specs.Ready.{rooms_in, Same};
ghost use Rattle.straight_side.specs.Ready.{KeptWith, Kept};

use cut::arrival::Cuts;
use prune::mode::Part;
use slice::write::Lent;
use straight_along::along;
use straight_along::along::Sieve;
use straight_cut::at_cut::Ordered;
use straight_cut::microdegrees;

// The numbers of one outline's turn: the other outline's vertex count, its edition, how its candidates become slices, and from which slice number on.
// No `Sieve` yet: its list of whole microdegrees is written first.
#[derive(Clone, Copy)]
pub struct Side {
    pub other_vc: usize,
    pub edition: u32,
    pub part: Part,
    pub from: usize,
}

// Writes the slices of one outline, and says where they end. The lists lent beside the rooms are for the order of the cuts, the cuts in it, and the other outline in whole
// microdegrees.
pub fn kept_with(
    cuts: &Cuts,
    other: &[f64],
    side: Side,
    order: &mut [usize],
    cut_at: &mut [usize],
    cut: &mut [f64],
    wholes: &mut [i64],
    lent: &mut Lent,
) -> usize
    requires { KeptWith (held cuts.now) other.now side order.old cut_at.old cut.old wholes.old (rooms_in lent.old) }
    ensures same { Same lent.old lent.new }
    ensures kept { Kept (held cuts.now) other.now side (rooms_in lent.old) result (rooms_in lent.new) }
{
    let part = side.part;
    cut_order::write::write_order(cuts, order, cut_at, cut);
    microdegrees::write_wholes(other, side.other_vc, wholes);
    let ordered = Ordered {
        outline: cuts.outline,
        cut_at,
        cut,
        case: cuts.case,
    };
    let sieve = Sieve {
        other: wholes,
        other_vc: side.other_vc,
        edition: side.edition,
        part,
    };
    along::walk_fronts(&ordered, &sieve, lent, side.from)
}
