// The stitch and the area pass: the words of a case as their inputs, and what they answer beside what the case says.
use crate::{lists, words};
use stitch_entries::answer::StitchAnswer;

// How many vertices and slices there are, where the classes start, the selector, the place of the tolerance, and the places of the lists.
#[derive(Clone, Copy)]
struct SliceWords {
    vc1: usize,
    vc2: usize,
    slices: usize,
    pline2: usize,
    pline1_overlapping: usize,
    pline2_overlapping: usize,
    selector: u32,
    tolerance: usize,
    outline2: usize,
    slice_at: usize,
    slice: usize,
    next: usize,
}

fn slices(w: &[usize]) -> SliceWords {
    let vc1 = words::behind(w, 1);
    let outline2 = words::after(w, vc1, 1);
    let vc2 = words::behind(w, outline2);
    let slice_at = words::after(w, vc2, 1);
    let slice = words::behind(w, slice_at);
    let slices = words::behind(w, slice);
    let r = words::from(w, slices);
    SliceWords {
        vc1: words::at(w, vc1),
        vc2: words::at(w, vc2),
        slices: words::at(r, 0),
        pline2: words::at(r, 1),
        pline1_overlapping: words::at(r, 2),
        pline2_overlapping: words::at(r, 3),
        selector: words::code_at(r, 4),
        tolerance: words::after(w, slices, 5),
        outline2,
        slice_at,
        slice,
        next: words::after(w, slices, 6),
    }
}

// The places of the lists lent, and of the answer behind them.
#[derive(Clone, Copy)]
struct LentWords {
    room: usize,
    ends: usize,
    chain: usize,
    chain_ends: usize,
    chain_how: usize,
    end: usize,
}

fn lent(w: &[usize], room: usize) -> LentWords {
    let ends = words::behind(w, room);
    let chain = words::behind(w, ends);
    let chain_ends = words::behind(w, chain);
    let chain_how = words::behind(w, chain_ends);
    LentWords {
        room,
        ends,
        chain,
        chain_ends,
        chain_how,
        end: words::behind(w, chain_how),
    }
}

fn is_stitch_answer(w: &[usize], r: StitchAnswer) -> bool {
    words::is_code(w, 0, r.refusal)
        && words::is(w, 1, r.rounds)
        && words::is(w, 2, r.loops)
        && words::is(w, 3, r.chains)
}

// The four lists of whole numbers hold at exit what the case has one behind the other: the loops' ends, the chains, their ends, how they ended.
fn left_chains(
    w: &[usize],
    l: LentWords,
    left: usize,
    c1: &[usize],
    c2: &[usize],
    c3: &[usize],
    c4: &[usize],
) -> bool {
    let left2 = words::left_behind(w, l.ends, left);
    let left3 = words::left_behind(w, l.chain, left2);
    let left4 = words::left_behind(w, l.chain_ends, left3);
    words::left_counts(w, c1, l.ends, left)
        && words::left_counts(w, c2, l.chain, left2)
        && words::left_counts(w, c3, l.chain_ends, left3)
        && words::left_counts(w, c4, l.chain_how, left4)
}

pub(crate) fn stitch(
    w: &[usize],
    x: &[f64],
    x1: &mut [f64],
    c1: &mut [usize],
    c2: &mut [usize],
    c3: &mut [usize],
    c4: &mut [usize],
) -> bool {
    let g = slices(w);
    let l = lent(w, g.next);
    let zeros = [0u32; 1792];
    let entered = [1usize];
    let settings = lists::one_setting(words::float_at(x, g.tolerance), 0.0);
    let answer = mask::stitching::mask_stitch(
        words::list(w, x, 1),
        g.vc1,
        0,
        words::list(w, x, g.outline2),
        g.vc2,
        0,
        words::list(w, w, g.slice_at),
        words::list(w, x, g.slice),
        words::editions(&zeros, g.slices),
        g.slices,
        g.pline2,
        g.pline1_overlapping,
        g.pline2_overlapping,
        g.selector,
        &entered,
        &settings,
        1,
        words::lent(w, x1, l.room),
        words::lent(w, c1, l.ends),
        words::lent(w, c2, l.chain),
        words::lent(w, c3, l.chain_ends),
        words::lent(w, c4, l.chain_how),
    );
    let left = words::after(w, l.end, 4);
    is_stitch_answer(words::from(w, l.end), answer)
        && words::left_numbers(w, x1, l.room, left)
        && left_chains(w, l, words::left_behind(w, l.room, left), c1, c2, c3, c4)
}

pub(crate) fn area_pass(w: &[usize], x: &[f64], c1: &mut [usize]) -> bool {
    let loops = words::behind(w, 1);
    let kept = words::after(w, loops, 2);
    let end = words::behind(w, kept);
    let entered = [1usize];
    let settings = lists::one_setting(1.0, words::float_at(words::from(x, loops), 1));
    let answer = mask::stitching::mask_area_pass(
        words::list(w, x, 1),
        words::at(w, loops),
        &entered,
        &settings,
        1,
        words::lent(w, c1, kept),
    );
    lists::is_count_answer(words::from(w, end), answer)
        && words::left_counts(w, c1, kept, words::after(w, end, 2))
}
