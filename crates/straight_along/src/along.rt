// Along the cuts of one outline in their order: the candidate of each place, and its slice where it stays.
ghost use Rattle.std.specs.Prelude.{◌≡◌};
ghost use Rattle.slice.specs.Ready.{rooms_in, Same, Placed};
ghost use Rattle.prune_put.specs.Ready.{Wrote};
ghost use Rattle.straight_cut.specs.Splits.{ordered};
ghost use Rattle.straight_along.specs.Stays.{view_codes, view_shape, stays_of, stays_to};
ghost use Rattle.straight_along.specs.Ready.{StayFit, PlacesRoom, FrontsRoom, ordered_front, other_front};

use candidate::at_cut::Candidate;
use prune::mode::Part;
use slice::data::{Codes, Shape};
use slice::write;
use slice::write::Lent;
use straight_cut::at_cut::Ordered;
use straight_cut::inside;
use view::data::ViewData;

// What decides which candidates of one outline stay, and how they become slices: the other outline in whole microdegrees, its vertex count, the slices' edition, their codes and
// the inside answer asked for.
#[derive(Clone, Copy)]
pub struct Sieve<'a> {
    pub other: &'a [i64],
    pub other_vc: usize,
    pub edition: u32,
    pub part: Part,
}

// The codes of the slice that a view becomes. No `From`, here and below: neither type is of this crate.
fn codes_of(part: Part, v: ViewData) -> Codes
    ensures { result ≡ view_codes part v }
{
    Codes {
        source: part.source,
        inverted: part.inverted,
        start: v.start_index,
        offset: v.end_index_offset,
    }
}

// Its shape.
fn shape_of(v: ViewData) -> Shape
    ensures { result ≡ view_shape v }
{
    let updated_start = v.updated_start;
    let end_point = v.end_point;
    Shape {
        updated_start,
        end_bulge: v.updated_end_bulge,
        end_point,
    }
}

impl Sieve<'_> {
    // Writes a candidate as slice number n where it stays, and says where the slices end then.
    #[tactic(auto, using(crate::proofs::Walking::stays))]
    fn put_stay(&self, c: Option<Candidate>, lent: &mut Lent, n: usize) -> usize
        requires { StayFit c self.now.other.now self.now.other_vc (rooms_in lent.old) n }
        ensures same { Same lent.old lent.new }
        ensures placed { Placed (stays_of self.now.other.now self.now.edition self.now.part c) (rooms_in lent.old) n result (rooms_in lent.new) }
    {
        let part = self.part;
        let Some(c) = c else {
            return n;
        };
        if inside::inside_of(self.other, self.other_vc, c.from, c.to) != part.keep {
            return n;
        }
        let codes = codes_of(part, c.view);
        let shape = shape_of(c.view);
        write::put_slice(codes, shape, self.edition, lent, n);
        n + 1
    }
}

// Writes what stays at each place as slices from number m on, and says where they end.
#[tactic(auto, using(crate::proofs::Walking::walking))]
fn walk(cuts: &Ordered, sieve: &Sieve, lent: &mut Lent, m: usize) -> usize
    requires { PlacesRoom (ordered cuts.now) sieve.now.other.now sieve.now.other_vc (rooms_in lent.old) m }
    ensures same { Same lent.old lent.new }
    ensures wrote { Wrote (stays_to sieve.now.other.now sieve.now.edition sieve.now.part (ordered cuts.now) (ordered cuts.now).count) (ordered cuts.now).count (rooms_in lent.old) m result (rooms_in lent.new) }
{
    let count = cuts.case.count();
    let mut n = m;
    for p in 0..count {
        n = sieve.put_stay(cuts.candidate(p), lent, n);
    }
    n
}

// The same over cuts and whole microdegrees that stand in front of their lists.
#[tactic(auto, using(crate::proofs::Fronts::front_length))]
pub fn walk_fronts(cuts: &Ordered, sieve: &Sieve, lent: &mut Lent, m: usize) -> usize
    requires { FrontsRoom cuts.now.outline.now cuts.now.cut_at.now cuts.now.cut.now cuts.now.case sieve.now.other.now sieve.now.other_vc (rooms_in lent.old) m }
    ensures same { Same lent.old lent.new }
    ensures wrote { Wrote (stays_to (other_front sieve.now) sieve.now.edition sieve.now.part (ordered_front cuts.now) (ordered_front cuts.now).count) (ordered_front cuts.now).count (rooms_in lent.old) m result (rooms_in lent.new) }
{
    let case = cuts.case;
    let count = case.count();
    let numbers = 3 * count;
    let points = 2 * count;
    let wide = 2 * sieve.other_vc;
    let part = sieve.part;
    let front = Ordered {
        outline: cuts.outline,
        cut_at: &cuts.cut_at[..numbers],
        cut: &cuts.cut[..points],
        case,
    };
    let near = Sieve {
        other: &sieve.other[..wide],
        other_vc: sieve.other_vc,
        edition: sieve.edition,
        part,
    };
    walk(&front, &near, lent, m)
}
