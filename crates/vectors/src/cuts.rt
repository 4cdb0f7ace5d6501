// The two entries over cuts. What they have in common begins with the outline.
use crate::{lists, words};
use basis::answer::CountAnswer;

// How many vertices, hits and laps there are, the source, and the places of the lists.
#[derive(Clone, Copy)]
struct CutWords {
    vc: usize,
    source: u32,
    hits: usize,
    laps: usize,
    hit_at: usize,
    hit: usize,
    lap_at: usize,
    lap: usize,
    next: usize,
}

fn cuts(w: &[usize]) -> CutWords {
    let p = words::behind(w, 1);
    let hit_at = words::after(w, p, 2);
    let hit = words::behind(w, hit_at);
    let hits = words::behind(w, hit);
    let lap_at = words::after(w, hits, 1);
    let lap = words::behind(w, lap_at);
    let laps = words::behind(w, lap);
    CutWords {
        vc: words::at(w, p),
        source: words::code_at(words::from(w, p), 1),
        hits: words::at(w, hits),
        laps: words::at(w, laps),
        hit_at,
        hit,
        lap_at,
        lap,
        next: words::after(w, laps, 1),
    }
}

// The lists lent to the order begin at place p. Its answer stands behind them.
fn is_ordered(w: &[usize], p: usize, r: CountAnswer, cut_at: &[usize], cut: &[f64]) -> bool {
    let q = words::behind(w, p);
    let end = words::behind(w, q);
    let left = words::after(w, end, 2);
    lists::is_count_answer(words::from(w, end), r)
        && words::left_counts(w, cut_at, p, left)
        && words::left_numbers(w, cut, q, words::left_behind(w, p, left))
}

pub(crate) fn cut_order(w: &[usize], x: &[f64], c1: &mut [usize], x1: &mut [f64]) -> bool {
    let g = cuts(w);
    let tolerance = words::float_at(x, g.next);
    let p = words::after(w, g.next, 1);
    let answer = mask::cutting::mask_cut_order(
        words::list(w, x, 1),
        g.vc,
        g.source,
        words::list(w, w, g.hit_at),
        words::list(w, x, g.hit),
        g.hits,
        words::list(w, w, g.lap_at),
        words::list(w, x, g.lap),
        g.laps,
        tolerance,
        tolerance,
        words::lent(w, c1, p),
        words::lent(w, x1, words::behind(w, p)),
    );
    is_ordered(w, p, answer, c1, x1)
}

// The lists lent to the candidates begin at place p. Its answer stands behind them.
fn is_sliced(
    w: &[usize],
    p: usize,
    r: CountAnswer,
    cand_at: &[usize],
    cand: &[f64],
    probe: &[f64],
) -> bool {
    let q = words::behind(w, p);
    let s = words::behind(w, q);
    let end = words::behind(w, s);
    let left = words::after(w, end, 2);
    let left_cand = words::left_behind(w, p, left);
    lists::is_count_answer(words::from(w, end), r)
        && words::left_counts(w, cand_at, p, left)
        && words::left_numbers(w, cand, q, left_cand)
        && words::left_numbers(w, probe, s, words::left_behind(w, q, left_cand))
}

pub(crate) fn candidates(
    w: &[usize],
    x: &[f64],
    c1: &mut [usize],
    x1: &mut [f64],
    x2: &mut [f64],
) -> bool {
    let g = cuts(w);
    let t = words::behind(w, g.next);
    let tolerance = words::float_at(x, t);
    let p = words::after(w, t, 1);
    let q = words::behind(w, p);
    let mut edition = [0u32; 768];
    let answer = mask::cutting::mask_candidates(
        words::list(w, x, 1),
        g.vc,
        0,
        g.source,
        words::list(w, w, g.hit_at),
        words::list(w, x, g.hit),
        g.hits,
        words::list(w, w, g.lap_at),
        words::list(w, x, g.lap),
        g.laps,
        words::list(w, x, g.next),
        tolerance,
        tolerance,
        words::lent(w, c1, p),
        words::lent(w, x1, q),
        words::lent(w, x2, words::behind(w, q)),
        &mut edition,
    );
    is_sliced(w, p, answer, c1, x1, x2)
}
