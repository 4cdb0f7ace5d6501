#![tactic(auto)]
// The sheet of document 01, T1 to T10, through the exported entries. specs/Sheet.antt has the same cases as a list, and specs/SheetTheorems.antt proves that the entries answer so.
mod corners;
mod gap;
mod print;
mod squares;
mod stitches;
mod triangle;

use std::io;

// The ten cases in turn. Most begin with the candidates of both squares.
fn cases(rt: &impl Print, a: &[f64], b: &[f64]) -> io::Result<()> {
    let mut at_a = [0usize; 4];
    let mut shape_a = [0.0; 12];
    let count_a = squares::candidates_of_a(rt, a, &mut at_a, &mut shape_a)?;
    let mut at_b = [0usize; 4];
    let mut shape_b = [0.0; 12];
    let count_b = squares::candidates_of_b(rt, b, &mut at_b, &mut shape_b)?;
    stitches::modes(rt, &at_a, &shape_a, count_a, &at_b, &shape_b, count_b)?;
    triangle::on_vertex(rt)?;
    triangle::inside_segment(rt)?;
    stitches::nothing(rt)?;
    stitches::short_room(rt, &at_a, &shape_a, count_a, &at_b, &shape_b, count_b)?;
    gap::apart(rt, a)?;
    gap::joined(rt)
}

fn main(rt: HostRuntime) -> io::Result<()> {
    let a = squares::a();
    let b = squares::b();
    squares::show(&rt, &a, &b)?;
    cases(&rt, &a, &b)
}
