#![tactic(auto, using(crate::specs::PlaceLaws::pieces, crate::specs::PlaceLaws::walks, crate::specs::PlaceLaws::places, basis::specs::Choice::cases), unfolding(crate::specs::Candidates::same_next, crate::specs::Candidates::candidate_at))]
// What the cut at a place of the order gives: nothing, a piece or a walk.
ghost use Rattle.std.specs.Prelude.{◌≡◌};
ghost use Rattle.cut.specs.Cuts.{held};
ghost use Rattle.candidate.specs.Candidates.{same_next, piece_of, walked, walk_at, candidate_at};
ghost use Rattle.candidate.specs.Steps.{NextFit, walk_with, WalkParts, WalkReady};
ghost use Rattle.candidate.specs.Told.{told, ToldPlace, ToldLast};

use crate::next;
use crate::next::Next;
use basis::number::Tolerance;
use cut::arrival::Cuts;
use outline::point::{Point, Vertex};
use outline::read;
use view::create;
use view::create::Walk;
use view::data::ViewData;

// A candidate: its view, and the two vertices whose midpoint the host tests.
#[derive(Clone, Copy)]
pub struct Candidate {
    pub view: ViewData,
    pub from: Vertex,
    pub to: Vertex,
}

// The next cut in the order is on the same segment.
pub fn same_next(cut_at: &[usize], count: usize, p: usize) -> bool
    requires { NextFit cut_at.now count p }
    ensures { result ≡ same_next cut_at.now count p }
{
    p + 1 < count && cut_at[3 * (p + 1)] == cut_at[3 * p]
}

// The piece on segment s between the split's start part a and its split vertex b. Where the two agree there is no view, and so no piece.
pub fn piece(s: usize, a: Vertex, b: Vertex, t: Tolerance) -> Option<Candidate>
    ensures { result ≡ piece_of s a b t }
{
    let view = create::create_on_single_segment(s, a, Point::from(b), t)?;
    Some(Candidate {
        view,
        from: a,
        to: b,
    })
}

// The candidate of a walk.
pub fn walk_candidate(outline: &[f64], vc: usize, w: Walk, t: Tolerance) -> Option<Candidate>
    requires { WalkReady outline.now vc w }
    ensures { result ≡ walked outline.now vc w t }
{
    let start = w.updated_start;
    let after = read::outline_at(outline, vc, w.start_index + 1);
    let view = create::create(outline, vc, w, t);
    Some(Candidate {
        view,
        from: start,
        to: after,
    })
}

// The walk from the cut at place p, on that segment, to the cut where it ends, which has that point. The split of that cut goes to `create`.
fn walk_by(end: Point, splits: &[f64], segment: usize, p: usize, next: Next) -> Walk
    requires { WalkParts splits.now p next }
    ensures { result ≡ walk_with end splits.now segment p next }
{
    let part = read::vertex_at(splits, 3 * next.cut);
    let start = read::vertex_at(splits, 3 * p + 2);
    Walk {
        start_index: segment,
        end_intersect: end,
        intersect_index: next.index,
        updated_start: start,
        traverse_count: next.traverse,
        split_bulge: part.bulge,
    }
}

// The cuts of one outline in an order that a list tells, three numbers a cut, and the splits along them.
#[derive(Clone, Copy)]
pub struct Along<'a> {
    pub cuts: Cuts<'a>,
    pub cut_at: &'a [usize],
    pub splits: &'a [f64],
}

impl Along<'_> {
    // The walk from the cut at place p, its segment's last, to the first cut of the next segment that has one. That cut's point is the one of its number of arrival.
    fn walk(&self, p: usize) -> Option<Candidate>
        requires { ToldLast (held self.now.cuts) self.now.cut_at.now self.now.splits.now p }
        ensures { result ≡ walk_at (told self.now) p }
    {
        let s = self.cuts.case;
        let segment = self.cut_at[3 * p];
        let next = next::next_cut(self.cut_at, s.vc, s.count(), p);
        let n = self.cut_at[3 * next.cut + 2];
        let end = self.cuts.cut_of(n);
        let w = walk_by(end.point, self.splits, segment, p, next);
        walk_candidate(self.cuts.outline, s.vc, w, s.tolerance)
    }

    // What the cut at place p gives: nothing where it is marked, the piece to its neighbour, or the walk.
    pub fn candidate_at(&self, p: usize) -> Option<Candidate>
        requires { ToldPlace (held self.now.cuts) self.now.cut_at.now self.now.splits.now p }
        ensures { result ≡ candidate_at (told self.now) p }
    {
        if self.cut_at[3 * p + 1] == 1 {
            return None;
        }
        if same_next(self.cut_at, self.cuts.case.count(), p) {
            let q = p + 1;
            let a = read::vertex_at(self.splits, 3 * q);
            let b = read::vertex_at(self.splits, 3 * q + 1);
            return piece(self.cut_at[3 * p], a, b, self.cuts.case.tolerance);
        }
        self.walk(p)
    }
}
