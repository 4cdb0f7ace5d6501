// The entries over views: the words of a case as their inputs, and what they answer beside what it says.
use crate::words;
use outline::point::{Point, Vertex};
use verdict_answer::answer::VerdictAnswer;
use view_entries::answer::ViewAnswer;
use view_entries::input::{Split, View};

pub(crate) fn point(x: &[f64]) -> Point {
    Point {
        x: words::float_at(x, 0),
        y: words::float_at(x, 1),
    }
}

pub(crate) fn vertex(x: &[f64]) -> Vertex {
    Vertex {
        x: words::float_at(x, 0),
        y: words::float_at(x, 1),
        bulge: words::float_at(x, 2),
    }
}

pub(crate) fn split(x: &[f64]) -> Split {
    Split {
        updated_start: vertex(x),
        split_vertex: vertex(words::from(x, 3)),
    }
}

fn view(w: &[usize], x: &[f64]) -> View {
    View {
        start_index: words::at(w, 0),
        end_index_offset: words::at(w, 1),
        updated_start: vertex(words::from(x, 2)),
        updated_end_bulge: words::float_at(x, 5),
        end_point: point(words::from(x, 6)),
        inverted_direction: words::code_at(w, 8),
    }
}

fn is_point(w: &[usize], p: Point) -> bool {
    words::is_float(w, 0, p.x) && words::is_float(w, 1, p.y)
}

fn is_vertex(w: &[usize], v: Vertex) -> bool {
    words::is_float(w, 0, v.x) && words::is_float(w, 1, v.y) && words::is_float(w, 2, v.bulge)
}

fn is_view(w: &[usize], v: View) -> bool {
    words::is(w, 0, v.start_index)
        && words::is(w, 1, v.end_index_offset)
        && is_vertex(words::from(w, 2), v.updated_start)
        && words::is_float(w, 5, v.updated_end_bulge)
        && words::is_code(w, 8, v.inverted_direction)
        && is_point(words::from(w, 6), v.end_point)
}

// An answer that begins with its refusal and whether it found something.
fn is_found(w: &[usize], refusal: u32, found: u32) -> bool {
    words::is_code(w, 0, refusal) && words::is_code(w, 1, found)
}

pub(crate) fn is_view_answer(w: &[usize], r: ViewAnswer) -> bool {
    is_found(w, r.refusal, r.found) && is_view(words::from(w, 2), r.view)
}

fn is_verdict_answer(w: &[usize], r: VerdictAnswer) -> bool {
    let numbers = is_found(w, r.refusal, r.verdict)
        && words::is(w, 2, r.offset)
        && words::is(w, 3, r.source_length)
        && words::is_float(w, 9, r.updated_bulge);
    numbers
        && is_point(words::from(w, 4), r.point)
        && is_vertex(words::from(w, 6), r.vertex)
        && words::is_float(w, 10, r.expected)
}

// An entry is handed the outline, and the words behind it as whole numbers and as floats.
pub(crate) fn view_vertex(outline: &[f64], r: &[usize], y: &[f64]) -> bool {
    let v = view(words::from(r, 1), words::from(y, 1));
    let answer = mask::viewing::mask_view_vertex(outline, words::at(r, 0), v, words::at(r, 10));
    let w = words::from(r, 11);
    is_found(w, answer.refusal, answer.found) && is_vertex(words::from(w, 2), answer.vertex)
}

pub(crate) fn create(outline: &[f64], r: &[usize], y: &[f64]) -> bool {
    let tolerance = words::float_at(y, 9);
    let answer = mask::viewing::mask_create(
        outline,
        words::at(r, 0),
        words::at(r, 1),
        point(words::from(y, 2)),
        words::at(r, 4),
        vertex(words::from(y, 5)),
        words::at(r, 8),
        tolerance,
        tolerance,
        split(words::from(y, 10)),
    );
    is_view_answer(words::from(r, 16), answer)
}

pub(crate) fn create_on_single_segment(outline: &[f64], r: &[usize], y: &[f64]) -> bool {
    let tolerance = words::float_at(y, 7);
    let answer = mask::viewing::mask_create_on_single_segment(
        outline,
        words::at(r, 0),
        words::at(r, 1),
        vertex(words::from(y, 2)),
        point(words::from(y, 5)),
        tolerance,
        tolerance,
    );
    is_view_answer(words::from(r, 8), answer)
}

pub(crate) fn from_entire_pline(outline: &[f64], r: &[usize]) -> bool {
    let answer = mask::viewing::mask_from_entire_pline(
        outline,
        words::at(r, 0),
        words::code_at(r, 1),
    );
    is_view_answer(words::from(r, 2), answer)
}

pub(crate) fn validate_for_source(outline: &[f64], r: &[usize], y: &[f64]) -> bool {
    let v = view(words::from(r, 1), words::from(y, 1));
    let answer = mask::viewing::mask_validate_for_source(
        outline,
        words::at(r, 0),
        0,
        v,
        0,
        words::code_at(r, 10),
        words::code_at(r, 11),
    );
    is_verdict_answer(words::from(r, 12), answer)
}
