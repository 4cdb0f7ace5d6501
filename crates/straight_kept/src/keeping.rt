// The slices of one outline, with working lists of its own, in three sizes.
ghost use Rattle.cut.specs.Cuts.{held};
ghost use Rattle.slice.specs.Ready.{rooms_in, Same};
ghost use Rattle.straight_side.specs.Ready.{KeptRoom, Kept};
ghost use Rattle.straight_kept.specs.Ready.{KeptFew, Sized};

use basis::sizes::MOST_CANDIDATES;
use cut::arrival::Cuts;
use slice::write::Lent;
use straight_side::keeping::{Side, kept_with};

// With working lists for so many cuts and so many vertices of the other outline: few of them cost little to set up. Each length is a parameter of its own: that
// of an array is no product of a parameter.
#[tactic(auto, using(crate::proofs::Sizes::sizes))]
fn kept_in<
    const CUTS: usize,
    const NUMBERS: usize,
    const POINTS: usize,
    const VERTICES: usize,
    const WHOLES: usize,
>(cuts: &Cuts, other: &[f64], side: Side, lent: &mut Lent) -> usize
    requires room { KeptFew CUTS VERTICES (held cuts.now) other.now side (rooms_in lent.old) }
    requires sizes { Sized CUTS NUMBERS POINTS VERTICES WHOLES }
    ensures same { Same lent.old lent.new }
    ensures kept { Kept (held cuts.now) other.now side (rooms_in lent.old) result (rooms_in lent.new) }
{
    let mut order = [0usize; CUTS];
    let mut cut_at = [0usize; NUMBERS];
    let mut cut = [0.0f64; POINTS];
    let mut wholes = [0i64; WHOLES];
    kept_with(
        cuts,
        other,
        side,
        &mut order,
        &mut cut_at,
        &mut cut,
        &mut wholes,
        lent,
    )
}

// Writes the slices of one outline, and says where they end.
#[tactic(auto, using(crate::proofs::Sizes::sizes))]
pub fn kept(cuts: &Cuts, other: &[f64], side: Side, lent: &mut Lent) -> usize
    requires { KeptRoom (held cuts.now) other.now side (rooms_in lent.old) }
    ensures same { Same lent.old lent.new }
    ensures kept { Kept (held cuts.now) other.now side (rooms_in lent.old) result (rooms_in lent.new) }
{
    let count = cuts.case.count();
    if count <= 8 && side.other_vc <= 16 {
        return kept_in::<8, 24, 16, 16, 32>(cuts, other, side, lent);
    }
    if count <= 64 && side.other_vc <= 128 {
        return kept_in::<64, 192, 128, 128, 256>(cuts, other, side, lent);
    }
    kept_in::<MOST_CANDIDATES, 2304, 1536, 1024, 2048>(cuts, other, side, lent)
}
