// A triangle with one cut: T6 on a vertex, T7 inside a segment.
use crate::{corners, print, squares};
use outline::point::{Point, Vertex};
use std::io;
use view_entries::input::View;

fn outline() -> [f64; 9] {
    [0.0, 0.0, 0.0, 4.0, 0.0, 0.0, 0.0, 4.0, 0.0]
}

// The view of a candidate: its start and offset, and its six numbers.
fn view_of(at: [usize; 2], shape: [f64; 6]) -> View {
    View {
        start_index: at[0],
        end_index_offset: at[1],
        updated_start: Vertex {
            x: shape[0],
            y: shape[1],
            bulge: shape[2],
        },
        updated_end_bulge: shape[3],
        end_point: Point {
            x: shape[4],
            y: shape[5],
        },
        inverted_direction: 0,
    }
}

// The one candidate where the triangle is cut at (x, 0), on segment 0.
fn candidate(outline: &[f64], x: f64, at: &mut [usize], shape: &mut [f64]) -> u32 {
    let hit_at = [0usize, 0];
    let hit = [x, 0.0];
    let lap_at = [0usize; 0];
    let lap = [0.0; 0];
    let splits = [0.0, 0.0, 0.0, x, 0.0, 0.0, x, 0.0, 0.0];
    let mut probe = [0.0; 6];
    let mut edition = [0u32; 1];
    let answer = mask::cutting::mask_candidates(
        outline,
        3,
        0,
        1,
        &hit_at,
        &hit,
        1,
        &lap_at,
        &lap,
        0,
        &splits,
        squares::TOLERANCE,
        squares::TOLERANCE,
        at,
        shape,
        &mut probe,
        &mut edition,
    );
    answer.refusal
}

fn show_view(rt: &impl Print, outline: &[f64], view: View) -> io::Result<()> {
    print::word(rt, b"; its view:")?;
    let n = corners::view(rt, outline, 3, view)?;
    print::word(rt, b", ")?;
    print::whole(rt, n)?;
    print::word(rt, b" vertices\n")
}

// Its start and offset, and the vertices of its view.
fn cut_at(rt: &impl Print, x: f64) -> io::Result<()> {
    let outline = outline();
    let mut at = [0usize; 2];
    let mut shape = [0.0; 6];
    let refusal = candidate(&outline, x, &mut at, &mut shape);
    if refusal != 0 {
        return print::refused(rt, refusal);
    }
    print::starts_and_offsets(rt, &at)?;
    show_view(rt, &outline, view_of(at, shape))
}

pub(crate) fn on_vertex(rt: &impl Print) -> io::Result<()> {
    print::word(rt, b"T6 a triangle, one cut on vertex 0:")?;
    cut_at(rt, 0.0)
}

pub(crate) fn inside_segment(rt: &impl Print) -> io::Result<()> {
    print::word(rt, b"T7 the cut inside segment 0:")?;
    cut_at(rt, 1.0)
}
