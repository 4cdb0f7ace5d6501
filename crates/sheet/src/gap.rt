// T10: with tolerance 0.5, x = 1 and x = 1.5 do not agree, but are in each other's box.
use crate::{print, stitches};
use outline::point::{Point, Vertex};
use select::class::Starts;
use std::io;

// On A's segment 0 there is a view between the two, which there is not between points that agree.
pub(crate) fn apart(rt: &impl Print, a: &[f64]) -> io::Result<()> {
    let from = Vertex {
        x: 1.0,
        y: 0.0,
        bulge: 0.0,
    };
    let to = Point { x: 1.5, y: 0.0 };
    let made = mask::viewing::mask_create_on_single_segment(a, 4, 0, from, to, 0.5, 0.5);
    print::word(rt, b"T10 tolerance 0.5, x = 1 and x = 1.5: ")?;
    if made.found == 1 {
        print::word(rt, b"they do not agree; ")
    } else {
        print::word(rt, b"they agree; ")
    }
}

// A slice of A from 1.5 round to 1 is closed over the gap.
pub(crate) fn joined(rt: &impl Print) -> io::Result<()> {
    let slice_at = [1usize, 0, 0, 4];
    let slice = [1.5, 0.0, 0.0, 0.0, 1.0, 0.0];
    let slice_edition = [0u32; 1];
    let mut room = [0.0; 18];
    let starts = Starts {
        pline2: 1,
        pline1_overlapping: 1,
        pline2_overlapping: 1,
    };
    print::word(rt, b"A from 1.5 round to 1")?;
    stitches::stitch(
        rt,
        &slice_at,
        &slice,
        &slice_edition,
        1,
        starts,
        0,
        0.5,
        &mut room,
    )
}
