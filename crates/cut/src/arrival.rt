#![tactic(auto, using(crate::proofs::Arriving::parts), unfolding(crate::specs::Cuts::cut_of, crate::specs::Cuts::marked_end, crate::specs::Cuts::moved))]
// The cuts of one outline, by their numbers of arrival. Outline 1 and outline 2 differ in the source, 1 or 2, and in nothing else.
ghost use Rattle.std.specs.Prelude.{◌≡◌, ◌+◌, ◌*◌};
ghost use Rattle.outline.specs.Outline.{Segment};
ghost use Rattle.cut.specs.Cuts.{Countable, held, hit_cut, moved, marked_end, lap_cut, cut_of, Which, Arrival, HitFit, LapFit};

use basis::number::Tolerance;
use outline::point::Point;
use outline::read;
use view::create;

// A cut: the segment that it is on, whether it carries the overlap mark, its point.
#[derive(Clone, Copy)]
pub struct Cut {
    pub segment: usize,
    pub mark: bool,
    pub point: Point,
}

// What a call has beside its lists: the outline's vertex count, which outline it is (source 1 or 2), the counts of intersections and overlaps, the tolerance.
// It is made once, at the entry, and handed on as it is.
#[derive(Clone, Copy)]
pub struct Case {
    pub vc: usize,
    pub source: usize,
    pub hits: usize,
    pub laps: usize,
    pub tolerance: Tolerance,
}

impl Case {
    // How many cuts there are: one for each intersection, two for each overlap.
    pub fn count(&self) -> usize
        requires { Countable self.now }
        ensures { result ≡ self.now.hits + 2 * self.now.laps }
    {
        self.hits + 2 * self.laps
    }
}

// The cuts of one outline, as a call has them: the outline, the intersections and the overlaps, each with their indexes and their numbers, and what stands beside the lists.
#[derive(Clone, Copy)]
pub struct Cuts<'a> {
    pub outline: &'a [f64],
    pub hit_at: &'a [usize],
    pub hit: &'a [f64],
    pub lap_at: &'a [usize],
    pub lap: &'a [f64],
    pub case: Case,
}

// Which of two indexes, the one on outline 1 and the one on outline 2, is of the outline that a source names. A place in C's list: no plainer by a conversion.
pub fn which_of(source: usize) -> usize
    ensures { Which source result }
{
    if source == 2 { 1 } else { 0 }
}

// The index, or the next where the point agrees with the next vertex.
fn moved_index(outline: &[f64], vc: usize, i: usize, p: Point, t: Tolerance) -> usize
    requires { Segment outline.now vc i }
    ensures { result ≡ moved outline.now vc i p t }
{
    if create::near_vertex(outline, vc, i + 1, p, t) {
        read::wrapped(i + 1, vc)
    } else {
        i
    }
}

// Where an overlap carries the mark: 0 is its start, 1 its end, places in C's list.
fn marked_end(source: usize, opposing: usize) -> usize
    ensures { result ≡ marked_end source opposing }
{
    if source == 2 {
        return 0;
    }
    if opposing == 1 { 1 } else { 0 }
}

impl Cuts<'_> {
    // The cut of a basic intersection.
    #[inline(always)]
    fn hit_cut(&self, i: usize) -> Cut
        requires { HitFit self.now.hit_at.now self.now.hit.now i }
        ensures { result ≡ hit_cut self.now.hit_at.now self.now.hit.now self.now.case.source i }
    {
        let which = which_of(self.case.source);
        let p = read::point_at(self.hit, 2 * i);
        Cut {
            segment: self.hit_at[2 * i + which],
            mark: false,
            point: p,
        }
    }

    // The cut of an overlap at its start, 0, or its end, 1.
    fn lap_cut(&self, j: usize, end: usize) -> Cut
        requires { LapFit self.now.outline.now self.now.case.vc self.now.case.source self.now.lap_at.now self.now.lap.now j end }
        ensures { result ≡ lap_cut self.now.outline.now self.now.case.vc self.now.case.source self.now.lap_at.now self.now.lap.now self.now.case.tolerance j end }
    {
        let s = self.case;
        let which = which_of(s.source);
        let p = read::point_at(self.lap, 6 * j + 4 * end);
        let i = self.lap_at[7 * j + 2 * end + which];
        let segment = moved_index(self.outline, s.vc, i, p, s.tolerance);
        let marked = marked_end(s.source, self.lap_at[7 * j + 4]);
        Cut {
            segment,
            mark: end == marked,
            point: p,
        }
    }

    // The cut of an arrival number: intersections first, then start and end of each overlap in turn. Without overlaps every arrival is an intersection's. That is asked first, by
    // itself: then the compiler makes of each loop over cuts a second one for that case, which asks nothing of an arrival. For that it has to stand in the loop, and the loop
    // has to have a `Cuts` of its own: of one behind a reference the compiler does not know that the lists being written leave it as it is.
    #[inline(always)]
    pub fn cut_of(&self, n: usize) -> Cut
        requires { Arrival (held self.now) n }
        ensures { result ≡ cut_of (held self.now) n }
    {
        if self.case.laps == 0 {
            return self.hit_cut(n);
        }
        if n < self.case.hits {
            return self.hit_cut(n);
        }
        let k = n - self.case.hits;
        self.lap_cut(k / 2, k % 2)
    }
}
