// The two squares and their candidates: T1 and T2.
use crate::{corners, print};
use std::io;

pub(crate) const TOLERANCE: f64 = 0.0009765625;

pub(crate) fn a() -> [f64; 12] {
    [0.0, 0.0, 0.0, 4.0, 0.0, 0.0, 4.0, 4.0, 0.0, 0.0, 4.0, 0.0]
}

pub(crate) fn b() -> [f64; 12] {
    [2.0, 2.0, 0.0, 6.0, 2.0, 0.0, 6.0, 6.0, 0.0, 2.0, 6.0, 0.0]
}

pub(crate) fn show(rt: &impl Print, a: &[f64], b: &[f64]) -> io::Result<()> {
    print::word(rt, b"A is")?;
    corners::list(rt, a, 4)?;
    print::word(rt, b"B is")?;
    corners::list(rt, b, 4)?;
    print::word(
        rt,
        b"They cross at (4,2), on segments 1 and 0, and at (2,4), on 2 and 3. Tolerance 1/1024.\n",
    )
}

// The candidates of a square over the splits along its two cuts. Says how many there are.
fn sliced(
    outline: &[f64],
    source: u32,
    splits: &[f64],
    at: &mut [usize],
    shape: &mut [f64],
) -> usize {
    let hit_at = [1usize, 0, 2, 3];
    let hit = [4.0, 2.0, 2.0, 4.0];
    let lap_at = [0usize; 0];
    let lap = [0.0; 0];
    let mut probe = [0.0; 12];
    let mut edition = [0u32; 2];
    let answer = mask::cutting::mask_candidates(
        outline,
        4,
        0,
        source,
        &hit_at,
        &hit,
        2,
        &lap_at,
        &lap,
        0,
        splits,
        TOLERANCE,
        TOLERANCE,
        at,
        shape,
        &mut probe,
        &mut edition,
    );
    answer.count
}

// The same, shown.
fn candidates(
    rt: &impl Print,
    outline: &[f64],
    source: u32,
    splits: &[f64],
    at: &mut [usize],
    shape: &mut [f64],
) -> io::Result<usize> {
    let count = sliced(outline, source, splits, at, shape);
    print::whole(rt, count)?;
    print::word(rt, b",")?;
    print::starts_and_offsets(rt, at)?;
    print::word(rt, b"\n")?;
    Ok(count)
}

// A square's splits: for each cut the part of its segment up to it, the cut, and the cut again as the whole segment's split.
pub(crate) fn candidates_of_a(
    rt: &impl Print,
    a: &[f64],
    at: &mut [usize],
    shape: &mut [f64],
) -> io::Result<usize> {
    print::word(rt, b"T1 candidates of A: ")?;
    let splits = [
        4.0, 0.0, 0.0, 4.0, 2.0, 0.0, 4.0, 2.0, 0.0, 4.0, 4.0, 0.0, 2.0, 4.0, 0.0, 2.0, 4.0, 0.0,
    ];
    candidates(rt, a, 1, &splits, at, shape)
}

pub(crate) fn candidates_of_b(
    rt: &impl Print,
    b: &[f64],
    at: &mut [usize],
    shape: &mut [f64],
) -> io::Result<usize> {
    print::word(rt, b"T2 candidates of B: ")?;
    let splits = [
        2.0, 2.0, 0.0, 4.0, 2.0, 0.0, 4.0, 2.0, 0.0, 2.0, 6.0, 0.0, 2.0, 4.0, 0.0, 2.0, 4.0, 0.0,
    ];
    candidates(rt, b, 2, &splits, at, shape)
}
