#![tactic(auto, using(crate::proofs::Following::following, crate::proofs::Following::going), unfolding(cut_runs::specs::Sooner::sooner, crate::specs::Along::key_by, crate::specs::Along::goes_on, crate::specs::Along::goes_by, crate::specs::Along::follows_by))]
// A hint: the order of the cuts as a caller hands it in, tested in one pass.
ghost use Rattle.std.specs.Prelude.{◌≡◌};
ghost use Rattle.outline.specs.Outline.{Triple};
ghost use Rattle.cut.specs.Cuts.{held};
ghost use Rattle.cut.specs.Order.{Accepted};
ghost use Rattle.cut_runs.specs.Sooner.{sooner};
ghost use Rattle.cut_order.specs.Along.{key_by, goes_on, follows_by, Third, Followed};

use crate::keys;
use cut::arrival::{Cut, Cuts};

// What a cut is sorted by: its segment, its distance, its number of arrival.
#[derive(Clone, Copy)]
pub struct Key {
    pub segment: usize,
    pub distance: f64,
    pub arrival: usize,
}

fn key_of(outline: &[f64], c: Cut, n: usize) -> Key
    requires { Triple outline.now c.segment }
    ensures { result ≡ key_by outline.now c n }
{
    let distance = keys::distance_of(outline, c);
    Key {
        segment: c.segment,
        distance,
        arrival: n,
    }
}

// By segment, then by distance.
fn is_sooner(a: Key, b: Key) -> bool
    ensures { result ≡ sooner a.segment b.segment a.distance b.distance }
{
    a.segment < b.segment || a.segment == b.segment && a.distance < b.distance
}

// The first is always right. Every other has to come after the one before it: that one goes before it, or neither goes before the other and that one arrived first.
fn goes_on(i: usize, last: Key, key: Key) -> bool
    ensures { result ≡ goes_on i last key }
{
    if i == 0 {
        return true;
    }
    is_sooner(last, key) || (last.arrival < key.arrival) & !is_sooner(key, last)
}

// What the hint has at place i is the cut, and the cut may come after the one before it. Joined by `&`, since `&&` would be a branch more for each cut.
fn follows(cut_at: &[usize], i: usize, c: Cut, last: Key, key: Key) -> bool
    requires { Third cut_at.now i }
    ensures { result ≡ follows_by cut_at.now i c last key }
{
    let segment = cut_at[3 * i] == c.segment;
    let mark = cut_at[3 * i + 1] == usize::from(c.mark);
    segment & (mark & goes_on(i, last, key))
}

// Whether the list holds the cuts in their order, three numbers each.
pub fn is_along(cuts: &Cuts, cut_at: &[usize]) -> bool
    requires { Accepted (held cuts.now) }
    ensures { Followed (held cuts.now) cut_at.now result }
{
    let count = cuts.case.count();
    if cut_at.len() != 3 * count {
        return false;
    }
    let mut last = Key {
        segment: 0,
        distance: 0.0,
        arrival: 0,
    };
    for i in 0..count {
        let n = cut_at[3 * i + 2];
        if count <= n {
            return false;
        }
        let c = cuts.cut_of(n);
        let key = key_of(cuts.outline, c, n);
        if !follows(cut_at, i, c, last, key) {
            return false;
        }
        last = key;
    }
    true
}
