// The search for the next segment that has a cut.
ghost use Rattle.std.specs.Prelude.{◌≡◌};
ghost use Rattle.candidate.specs.Steps.{Among, NextPlace, segments_on, Segments, LastCut, NextCut};

use outline::read;

// Where a walk ends: its traverse count, the segment there, and that segment's first cut.
#[derive(Clone, Copy)]
pub struct Next {
    pub traverse: usize,
    pub index: usize,
    pub cut: usize,
}

// The next place in the order: after the last cut comes the first.
#[tactic(auto, using(crate::proofs::Seeking::finding))]
fn next_place(count: usize, p: usize) -> usize
    requires { Among count p }
    ensures { NextPlace count p result }
{
    if p + 1 < count { p + 1 } else { 0 }
}

// The traverse count: how many segments on from `s` the next one is that has a cut, which is `to`. It is from 1 to vc, and vc where `to` is `s` itself.
// A loop that breaks with it, as document 01 asks at this place ("Language forms by place").
fn traverse_count(vc: usize, s: usize, to: usize) -> usize
    requires { Segments vc s to }
    ensures { result ≡ segments_on vc s to }
{
    let mut k = 1;
    let mut i = read::wrapped(s + 1, vc);
    loop {
        if i == to {
            break k;
        }
        k += 1;
        i = read::wrapped(i + 1, vc);
    }
}

// Where the walk from the cut at place p, its segment's last, ends. The cuts go by segment, so the next segment that has one is that of the next place.
#[tactic(auto, using(crate::proofs::Seeking::finding))]
pub fn next_cut(cut_at: &[usize], vc: usize, count: usize, p: usize) -> Next
    requires { LastCut vc cut_at.now count p }
    ensures { NextCut vc cut_at.now count p result }
{
    let q = next_place(count, p);
    let to = cut_at[3 * q];
    let k = traverse_count(vc, cut_at[3 * p], to);
    Next {
        traverse: k,
        index: to,
        cut: q,
    }
}
