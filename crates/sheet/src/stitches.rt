// Pruned, then stitched: T3, T4, T5 and T9. Without slices: T8.
use crate::{corners, print, squares};
use mask::setting;
use prune_entries::answer::PruneAnswer;
use select::class::Starts;
use std::io;
use stitch_entries::answer::StitchAnswer;

// The slices of a mode, as they stay: A's first candidate is inside B, B's second inside A.
fn prune(
    mode: u32,
    at_a: &[usize],
    shape_a: &[f64],
    count_a: usize,
    at_b: &[usize],
    shape_b: &[f64],
    count_b: usize,
    at: &mut [usize],
    shape: &mut [f64],
    edition: &mut [u32],
) -> PruneAnswer {
    let inside_a = [1u8, 0];
    let inside_b = [0u8, 1];
    let lap_at = [0usize; 0];
    let lap = [0.0; 0];
    let lap_edition = [0u32; 0];
    let cut = [0u32; 2];
    mask::pruning::mask_prune(
        mode,
        0,
        4,
        4,
        at_a,
        shape_a,
        &cut,
        &inside_a,
        count_a,
        at_b,
        shape_b,
        &cut,
        &inside_b,
        count_b,
        &lap_at,
        &lap,
        &lap_edition,
        0,
        at,
        shape,
        edition,
    )
}

// How many slices stay, and where their classes start.
fn show_pruned(rt: &impl Print, slices: usize, starts: Starts) -> io::Result<()> {
    print::whole(rt, slices)?;
    print::word(rt, b" slices, starts")?;
    print::three(
        rt,
        starts.pline2,
        starts.pline1_overlapping,
        starts.pline2_overlapping,
    )
}

// Stitches slices of the two squares by a setting of a record.
fn joined(
    slice_at: &[usize],
    slice: &[f64],
    slice_edition: &[u32],
    slices: usize,
    starts: Starts,
    selector: u32,
    entered: &[usize],
    settings: &[f64],
    setting: usize,
    room: &mut [f64],
    ends: &mut [usize],
) -> StitchAnswer {
    let a = squares::a();
    let b = squares::b();
    let mut chain = [0usize; 2];
    let mut chain_ends = [0usize; 2];
    let mut chain_how = [0usize; 2];
    mask::stitching::mask_stitch(
        &a,
        4,
        0,
        &b,
        4,
        0,
        slice_at,
        slice,
        slice_edition,
        slices,
        starts.pline2,
        starts.pline1_overlapping,
        starts.pline2_overlapping,
        selector,
        entered,
        settings,
        setting,
        room,
        ends,
        &mut chain,
        &mut chain_ends,
        &mut chain_how,
    )
}

// The outcome of a stitch: the rounds, and the loop where there is one.
fn show_stitched(
    rt: &impl Print,
    answer: StitchAnswer,
    room: &[f64],
    end: usize,
) -> io::Result<()> {
    if answer.refusal != 0 {
        return print::refused(rt, answer.refusal);
    }
    print::whole(rt, answer.rounds)?;
    print::word(rt, b" rounds, ")?;
    print::whole(rt, answer.loops)?;
    print::word(rt, b" loops\n")?;
    if answer.loops == 0 {
        return Ok(());
    }
    print::word(rt, b"   loop of ")?;
    print::whole(rt, end)?;
    print::word(rt, b":")?;
    corners::list(rt, room, end)
}

fn show_room(rt: &impl Print, numbers: usize) -> io::Result<()> {
    print::word(rt, b"; room for ")?;
    print::whole(rt, numbers / 3)?;
    print::word(rt, b": ")
}

// Stitches slices of the two squares by a setting with this tolerance on both axes, and says the outcome.
pub(crate) fn stitch(
    rt: &impl Print,
    slice_at: &[usize],
    slice: &[f64],
    slice_edition: &[u32],
    slices: usize,
    starts: Starts,
    selector: u32,
    tolerance: f64,
    room: &mut [f64],
) -> io::Result<()> {
    let mut ends = [0usize; 2];
    let mut entered = [0usize; 1];
    let mut settings = [0.0; 48];
    let setting = setting::mask_settings_enter(
        &mut entered,
        &mut settings,
        tolerance,
        tolerance,
        0.0,
    );
    show_room(rt, room.len())?;
    let answer = joined(
        slice_at,
        slice,
        slice_edition,
        slices,
        starts,
        selector,
        &entered,
        &settings,
        setting.edition,
        room,
        &mut ends,
    );
    show_stitched(rt, answer, room, ends[0])
}

// The stitch of the first two slices of a list, with room for so many numbers.
fn stitch_two(
    rt: &impl Print,
    at: &[usize],
    shape: &[f64],
    edition: &[u32],
    starts: Starts,
    selector: u32,
    numbers: usize,
    room: &mut [f64],
) -> io::Result<()> {
    if at.len() < 8 {
        return Ok(());
    }
    if shape.len() < 12 {
        return Ok(());
    }
    if edition.len() < 2 {
        return Ok(());
    }
    if numbers > room.len() {
        return Ok(());
    }
    stitch(
        rt,
        &at[..8],
        &shape[..12],
        &edition[..2],
        2,
        starts,
        selector,
        squares::TOLERANCE,
        &mut room[..numbers],
    )
}

// A mode of the two squares, by its selector, with room for so many numbers, three to a vertex.
fn of_mode(
    rt: &impl Print,
    mode: u32,
    selector: u32,
    numbers: usize,
    at_a: &[usize],
    shape_a: &[f64],
    count_a: usize,
    at_b: &[usize],
    shape_b: &[f64],
    count_b: usize,
) -> io::Result<()> {
    let mut at = [0usize; 16];
    let mut shape = [0.0; 24];
    let mut edition = [0u32; 4];
    let kept = prune(
        mode,
        at_a,
        shape_a,
        count_a,
        at_b,
        shape_b,
        count_b,
        &mut at,
        &mut shape,
        &mut edition,
    );
    show_pruned(rt, kept.slices, kept.starts)?;
    let mut room = [0.0; 27];
    stitch_two(
        rt,
        &at,
        &shape,
        &edition,
        kept.starts,
        selector,
        numbers,
        &mut room,
    )
}

// T3, T4 and T5, each with the room that it needs.
pub(crate) fn modes(
    rt: &impl Print,
    at_a: &[usize],
    shape_a: &[f64],
    count_a: usize,
    at_b: &[usize],
    shape_b: &[f64],
    count_b: usize,
) -> io::Result<()> {
    print::word(rt, b"T3 union: ")?;
    of_mode(rt, 0, 0, 27, at_a, shape_a, count_a, at_b, shape_b, count_b)?;
    print::word(rt, b"T4 intersection: ")?;
    of_mode(rt, 1, 0, 15, at_a, shape_a, count_a, at_b, shape_b, count_b)?;
    print::word(rt, b"T5 A without B: ")?;
    of_mode(rt, 2, 1, 21, at_a, shape_a, count_a, at_b, shape_b, count_b)
}

// T9: the union, with room for one vertex less than it needs.
pub(crate) fn short_room(
    rt: &impl Print,
    at_a: &[usize],
    shape_a: &[f64],
    count_a: usize,
    at_b: &[usize],
    shape_b: &[f64],
    count_b: usize,
) -> io::Result<()> {
    print::word(rt, b"T9 union: ")?;
    of_mode(rt, 0, 0, 24, at_a, shape_a, count_a, at_b, shape_b, count_b)
}

// T8: no slices.
pub(crate) fn nothing(rt: &impl Print) -> io::Result<()> {
    print::word(rt, b"T8 no slices")?;
    let slice_at = [0usize; 0];
    let slice = [0.0; 0];
    let slice_edition = [0u32; 0];
    let mut room = [0.0; 0];
    let starts = Starts {
        pline2: 0,
        pline1_overlapping: 0,
        pline2_overlapping: 0,
    };
    stitch(
        rt,
        &slice_at,
        &slice,
        &slice_edition,
        0,
        starts,
        0,
        squares::TOLERANCE,
        &mut room,
    )
}
