// The entries for views that start anywhere: the words of a case as their inputs, and what they answer beside what it says.
use crate::{views, words};
use view_start_entries::answer::SpanAnswer;

fn is_span_answer(w: &[usize], r: SpanAnswer) -> bool {
    words::is_code(w, 0, r.refusal)
        && words::is_code(w, 1, r.moved)
        && words::is(w, 2, r.start_index)
        && words::is(w, 3, r.traverse_count)
}

pub(crate) fn slice_span(outline: &[f64], r: &[usize], y: &[f64]) -> bool {
    let tolerance = words::float_at(y, 8);
    let answer = mask::starting::mask_slice_span(
        outline,
        words::at(r, 0),
        words::code_at(r, 1),
        words::at(r, 2),
        views::point(words::from(y, 3)),
        words::at(r, 5),
        views::point(words::from(y, 6)),
        tolerance,
        tolerance,
    );
    is_span_answer(words::from(r, 9), answer)
}

pub(crate) fn from_slice_points(outline: &[f64], r: &[usize], y: &[f64]) -> bool {
    let tolerance = words::float_at(y, 8);
    let answer = mask::starting::mask_from_slice_points(
        outline,
        words::at(r, 0),
        words::code_at(r, 1),
        words::at(r, 2),
        views::point(words::from(y, 3)),
        words::at(r, 5),
        views::point(words::from(y, 6)),
        tolerance,
        tolerance,
        views::split(words::from(y, 9)),
        views::split(words::from(y, 15)),
    );
    views::is_view_answer(words::from(r, 21), answer)
}

pub(crate) fn from_new_start(outline: &[f64], r: &[usize], y: &[f64]) -> bool {
    let tolerance = words::float_at(y, 5);
    let answer = mask::starting::mask_from_new_start(
        outline,
        words::at(r, 0),
        words::code_at(r, 1),
        words::at(r, 2),
        views::point(words::from(y, 3)),
        tolerance,
        tolerance,
        views::split(words::from(y, 6)),
        views::split(words::from(y, 12)),
    );
    views::is_view_answer(words::from(r, 18), answer)
}
