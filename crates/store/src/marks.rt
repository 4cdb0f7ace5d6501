#![tactic(auto, unfolding(crate::specs::Marks::handle_of, crate::specs::Marks::place_of, crate::specs::Marks::mark_of, crate::specs::Marks::named))]
// Marks: which are live, which handle and which place is free.
ghost use Rattle.std.specs.Prelude.{◌≡◌, ◌+◌, false, not, length, get_or, take, position};
ghost use Rattle.store.specs.Keys.{lowest_from, without};
ghost use Rattle.store.specs.Marks.{mark_of, handle_of, named, filled};
ghost use Rattle.store.specs.Ready.{Few, Low, PlaceIs, LookFits, Looked, Blank, LookedAll, MarksFit, number_from};

use crate::copies;
use basis::room;

// The most places that lists have here: a party's half.
pub const MOST_PLACES: usize = 896;

// A mark is one number, place and handle packed, since the list of marks is C's.

// The handle that a mark names; of a number that names none, 0.
pub fn handle_of(m: usize) -> usize
    ensures { result ≡ handle_of m }
{
    (m % 2048).saturating_sub(1)
}

// The place that it names.
pub fn place_of(m: usize) -> usize
    ensures { PlaceIs m result }
{
    m / 2048
}

// The mark of the slice with handle `h` at place `t`.
pub fn mark_at(t: usize, h: usize) -> usize
    requires { Low t h }
    ensures { result ≡ mark_of t h }
{
    2048 * t + (h + 1)
}

// Whether `m` names a handle and a place of a store of `cap` places.
pub(crate) fn names(cap: usize, m: usize) -> bool
    ensures { result ≡ named cap m }
{
    let k = m % 2048;
    0 < k && (k <= cap && m / 2048 < cap)
}

// The live marks in the order put, `count` of them, and of each handle and each place whether one of them has it.
#[derive(Drop)]
pub struct Live {
    pub order: [usize; MOST_PLACES],
    pub handles: [bool; MOST_PLACES],
    pub places: [bool; MOST_PLACES],
    pub count: usize,
}

impl Live {
    // Nothing found yet.
    pub const NONE: Live = Live {
        order: [0; MOST_PLACES],
        handles: [false; MOST_PLACES],
        places: [false; MOST_PLACES],
        count: 0,
    };

    // Looks at number `p`, after `n` live marks: whether it is one more. Says how many there are then. The count is handed on, not kept in memory, since most numbers of a store name nothing.
    fn look(&mut self, held: &[usize], p: usize, n: usize) -> usize
        requires { LookFits held.now p n self.old.order self.old.handles self.old.places }
        ensures { Looked held.now (p + 1) result self.new.order self.new.handles self.new.places }
    {
        let m = held[p];
        if !names(held.len(), m) {
            return n;
        }
        let h = handle_of(m);
        let t = place_of(m);
        if self.handles[h] {
            return n;
        }
        if self.places[t] {
            return n;
        }
        self.handles[h] = true;
        self.places[t] = true;
        self.order[n] = m;
        n + 1
    }

    // Looks at every number of `held`, where nothing was found before.
    pub fn find(&mut self, held: &[usize])
        requires { Blank held.now self.old.count self.old.order self.old.handles self.old.places }
        ensures { LookedAll held.now self.new.count self.new.order self.new.handles self.new.places }
    {
        let mut n = 0;
        for p in 0..held.len() {
            n = self.look(held, p, n);
        }
        self.count = n;
    }

    // The live marks.
    pub fn marks(&self) -> &[usize]
        requires { Few self.now.count }
        ensures { result.now ≡ take self.now.count self.now.order }
    {
        &self.order[..self.count]
    }
}

// The lowest number whose flag is not set.
fn first_free(flags: &[bool]) -> Option<usize>
    ensures { result ≡ position not flags.now }
{
    flags.iter().position(|taken| !*taken)
}

// The lowest number below `cap` whose flag is not set; `cap` where all are set.
pub fn lowest(flags: &[bool; MOST_PLACES], cap: usize) -> usize
    requires { Few cap }
    ensures { result ≡ lowest_from (λ k. get_or flags.now k false) 0 cap }
{
    first_free(&flags[..cap]).unwrap_or(cap)
}

// The numbers are the marks, and zeros stand behind them.
pub fn set_marks(held: &mut [usize], marks: &[usize])
    requires { MarksFit held.old marks.now }
    ensures { held.new ≡ filled 0 (length held.old) marks.now }
{
    copies::copy(marks, 0, held, 0, marks.len());
    let cap = held.len();
    room::fill(held, marks.len(), cap, 0);
}

// The numbers are the marks without that of handle `h`, and zeros stand behind them.
pub fn set_others(held: &mut [usize], marks: &[usize], h: usize)
    requires { MarksFit held.old marks.now }
    ensures { held.new ≡ filled 0 (length held.old) (without handle_of marks.now h) }
{
    let mut k = 0;
    for m in marks {
        if handle_of(*m) == h {
            continue;
        }
        held[k] = *m;
        k += 1;
    }
    let cap = held.len();
    room::fill(held, k, cap, 0);
}

// The numbers are marks of slices at the first places, in turn, with the handles of `marks`, and zeros stand behind them.
pub fn number_marks(held: &mut [usize], marks: &[usize])
    requires { MarksFit held.old marks.now }
    ensures { held.new ≡ filled 0 (length held.old) (number_from 0 marks.now) }
{
    for (k, m) in marks.iter().enumerate() {
        held[k] = mark_at(k, handle_of(*m));
    }
    let cap = held.len();
    room::fill(held, marks.len(), cap, 0);
}
