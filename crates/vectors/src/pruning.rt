// Pruning: the words of a case as its inputs, and what it answers beside what the case says.
use crate::words;
use prune_entries::answer::PruneAnswer;

// How many candidates an outline has, and the places of their lists.
#[derive(Clone, Copy)]
struct SideWords {
    count: usize,
    at: usize,
    cand: usize,
    inside: usize,
    next: usize,
}

fn side(w: &[usize], at: usize) -> SideWords {
    let cand = words::behind(w, at);
    let inside = words::behind(w, cand);
    let count = words::behind(w, inside);
    SideWords {
        count: words::at(w, count),
        at,
        cand,
        inside,
        next: words::after(w, count, 1),
    }
}

// How many overlaps there are, and the places of their lists.
#[derive(Clone, Copy)]
struct LapWords {
    count: usize,
    at: usize,
    lap: usize,
    next: usize,
}

fn laps(w: &[usize], at: usize) -> LapWords {
    let lap = words::behind(w, at);
    let count = words::behind(w, lap);
    LapWords {
        count: words::at(w, count),
        at,
        lap,
        next: words::after(w, count, 1),
    }
}

fn is_prune_answer(w: &[usize], r: PruneAnswer) -> bool {
    words::is_code(w, 0, r.refusal)
        && words::is(w, 1, r.slices)
        && words::is(w, 2, r.starts.pline2)
        && words::is(w, 3, r.starts.pline1_overlapping)
        && words::is(w, 4, r.starts.pline2_overlapping)
}

// The lists lent begin at place p. The answer stands behind them.
fn is_pruned(w: &[usize], p: usize, r: PruneAnswer, slice_at: &[usize], slice: &[f64]) -> bool {
    let q = words::behind(w, p);
    let end = words::behind(w, q);
    let left = words::after(w, end, 5);
    is_prune_answer(words::from(w, end), r)
        && words::left_counts(w, slice_at, p, left)
        && words::left_numbers(w, slice, q, words::left_behind(w, p, left))
}

pub(crate) fn prune(w: &[usize], x: &[f64], b: &[u8], c1: &mut [usize], x1: &mut [f64]) -> bool {
    let g = side(w, 5);
    let h = side(w, g.next);
    let l = laps(w, h.next);
    let zeros = [0u32; 1792];
    let mut edition = [0u32; 1792];
    let answer = mask::pruning::mask_prune(
        words::code_at(w, 1),
        words::code_at(w, 2),
        words::at(w, 3),
        words::at(w, 4),
        words::list(w, w, g.at),
        words::list(w, x, g.cand),
        words::editions(&zeros, g.count),
        words::list(w, b, g.inside),
        g.count,
        words::list(w, w, h.at),
        words::list(w, x, h.cand),
        words::editions(&zeros, h.count),
        words::list(w, b, h.inside),
        h.count,
        words::list(w, w, l.at),
        words::list(w, x, l.lap),
        words::editions(&zeros, l.count),
        l.count,
        words::lent(w, c1, l.next),
        words::lent(w, x1, words::behind(w, l.next)),
        &mut edition,
    );
    is_pruned(w, l.next, answer, c1, x1)
}
