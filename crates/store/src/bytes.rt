// The live marks, and the lowest number that is free, where flags are bytes: not 0 where they are set.
ghost use Rattle.std.specs.Prelude.{◌≡◌, ◌+◌, get_or};
ghost use Rattle.store.specs.Keys.{lowest_from};
ghost use Rattle.store.specs.Ready.{Few, told};
ghost use Rattle.store.specs.Bytes.{LookBytesFits, LookedBytes, BlankBytes, LookedAllBytes, free_of};

use crate::marks::{self, MOST_PLACES};

// Looks at number `p`, after `n` live marks. Where it is a live mark it is written to `order`, and the flags of its handle and its place are set. Says how many are live.
fn look(
    held: &[usize],
    p: usize,
    n: usize,
    order: &mut [usize; MOST_PLACES],
    handles: &mut [u8; MOST_PLACES],
    places: &mut [u8; MOST_PLACES],
) -> usize
    requires { LookBytesFits held.now p n order.old handles.old places.old }
    ensures { LookedBytes held.now (p + 1) result order.new handles.new places.new }
{
    let m = held[p];
    if !marks::names(held.len(), m) {
        return n;
    }
    let h = marks::handle_of(m);
    let t = marks::place_of(m);
    if handles[h] != 0 {
        return n;
    }
    if places[t] != 0 {
        return n;
    }
    handles[h] = 1;
    places[t] = 1;
    order[n] = m;
    n + 1
}

// The live marks in the order put, and the handles and the places that are taken. Says how many are live.
pub fn live_marks(
    held: &[usize],
    order: &mut [usize; MOST_PLACES],
    handles: &mut [u8; MOST_PLACES],
    places: &mut [u8; MOST_PLACES],
) -> usize
    requires { BlankBytes held.now order.old handles.old places.old }
    ensures { LookedAllBytes held.now result order.new handles.new places.new }
{
    let mut n = 0;
    for p in 0..held.len() {
        n = look(held, p, n, order, handles, places);
    }
    n
}

// The lowest number below `cap` whose flag is not set; `cap` where all are set.
#[tactic(auto, using(crate::proofs::LookingBytes::freeing))]
pub fn lowest(flags: &[u8; MOST_PLACES], cap: usize) -> usize
    requires { Few cap }
    ensures { result ≡ lowest_from (λ k. told (get_or flags.now k 0)) 0 cap }
{
    for k in 0..cap {
        if flags[k] == 0 {
            return k;
        }
    }
    cap
}

// The lowest handle that no live mark has, and their number where each handle has one. None where there are more numbers than lists have here.
#[tactic(auto, using(crate::proofs::LookingBytes::freed))]
pub fn free_handle(held: &[usize]) -> Option<usize>
    ensures { result ≡ free_of held.now }
{
    if MOST_PLACES < held.len() {
        return None;
    }
    let mut order = [0; MOST_PLACES];
    let mut handles = [0; MOST_PLACES];
    let mut places = [0; MOST_PLACES];
    live_marks(held, &mut order, &mut handles, &mut places);
    Some(lowest(&handles, held.len()))
}
