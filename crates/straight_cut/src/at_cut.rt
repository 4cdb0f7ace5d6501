// What the cut at a place of the order gives on a straight outline. Its splits are known from the cuts, so no list of them is made.
ghost use Rattle.std.specs.Prelude.{◌≡◌};
ghost use Rattle.candidate.specs.Candidates.{walk_at, candidate_at};
ghost use Rattle.candidate.specs.Steps.{Place, LastPlace};
ghost use Rattle.straight_cut.specs.Splits.{cut_vertex, straight_walk, ordered, CutThere, WalkThere};

use candidate::at_cut::Candidate;
use candidate::next::Next;
use candidate::{at_cut, next};
use cut::arrival::Case;
use outline::point::Vertex;
use outline::read;
use view::create::Walk;

// The cut at place p, with bulge +0: the split vertex there, and the start part of a later split on its segment.
#[tactic(auto, using(crate::specs::SplitsLaws::cut_is))]
fn cut_vertex(cut: &[f64], p: usize) -> Vertex
    requires { CutThere cut.now p }
    ensures { result ≡ cut_vertex cut.now p }
{
    read::point_at(cut, 2 * p).vertex(0.0)
}

// The walk from the cut at place p, on that segment, to the cut where it ends, whose start part has bulge +0.
#[tactic(auto, using(crate::specs::SplitsLaws::walks))]
fn walk_by(cut: &[f64], segment: usize, p: usize, next: Next) -> Walk
    requires { WalkThere cut.now p next }
    ensures { result ≡ straight_walk cut.now segment p next }
{
    let start = cut_vertex(cut, p);
    let end = read::point_at(cut, 2 * next.cut);
    Walk {
        start_index: segment,
        end_intersect: end,
        intersect_index: next.index,
        updated_start: start,
        traverse_count: next.traverse,
        split_bulge: 0.0,
    }
}

// The cuts of one outline in their order, in lists: three numbers and a point each, with what stands beside them.
#[derive(Clone, Copy)]
pub struct Ordered<'a> {
    pub outline: &'a [f64],
    pub cut_at: &'a [usize],
    pub cut: &'a [f64],
    pub case: Case,
}

impl Ordered<'_> {
    // The walk from the cut at place p, its segment's last, to the first cut of the next segment that has one.
    #[tactic(auto, using(crate::specs::SplitsLaws::walks))]
    fn walk(&self, p: usize) -> Option<Candidate>
        requires { LastPlace (ordered self.now) p }
        ensures { result ≡ walk_at (ordered self.now) p }
    {
        let s = self.case;
        let next = next::next_cut(self.cut_at, s.vc, s.count(), p);
        let w = walk_by(self.cut, self.cut_at[3 * p], p, next);
        at_cut::walk_candidate(self.outline, s.vc, w, s.tolerance)
    }

    // What the cut at place p gives: nothing where it is marked, the piece to its neighbour, or the walk.
    #[tactic(auto, using(crate::specs::SplitsLaws::pieces, basis::specs::Choice::cases), unfolding(candidate::specs::Candidates::candidate_at))]
    pub fn candidate(&self, p: usize) -> Option<Candidate>
        requires { Place (ordered self.now) p }
        ensures { result ≡ candidate_at (ordered self.now) p }
    {
        let s = self.case;
        if self.cut_at[3 * p + 1] == 1 {
            return None;
        }
        if at_cut::same_next(self.cut_at, s.count(), p) {
            let a = cut_vertex(self.cut, p);
            let b = cut_vertex(self.cut, p + 1);
            return at_cut::piece(self.cut_at[3 * p], a, b, s.tolerance);
        }
        self.walk(p)
    }
}
