// A case: its words in every form, and the entry that it is of. No case has more than 4096 words.
use crate::entry::Entry;
use crate::{bits, cuts, pruning, starts, stitching, views, words};

// Writes the words of the case's bytes to a list, and words to lists as floats and as bytes. Beyond the end they are 0.
fn fill_counts(bytes: &[u8], l: &mut [usize]) {
    for (i, word) in l.iter_mut().enumerate() {
        *word = bits::word_at(bytes, i);
    }
}

fn fill_numbers(w: &[usize], l: &mut [f64]) {
    for (x, word) in l.iter_mut().zip(w) {
        *x = words::float_of(*word);
    }
}

fn fill_flags(w: &[usize], l: &mut [u8]) {
    for (flag, word) in l.iter_mut().zip(w) {
        *flag = bits::low(*word);
    }
}

// Each entry that writes lists is lent copies of the case's words: a list stands in its copy at its own place.
fn cut_order(w: &[usize; 4096], x: &[f64; 4096]) -> bool {
    let mut c1 = *w;
    let mut x1 = *x;
    cuts::cut_order(w, x, &mut c1, &mut x1)
}

fn candidates(w: &[usize; 4096], x: &[f64; 4096]) -> bool {
    let mut c1 = *w;
    let mut x1 = *x;
    let mut x2 = *x;
    cuts::candidates(w, x, &mut c1, &mut x1, &mut x2)
}

fn prune(w: &[usize; 4096], x: &[f64; 4096]) -> bool {
    let mut b = [0u8; 4096];
    fill_flags(w, &mut b);
    let mut c1 = *w;
    let mut x1 = *x;
    pruning::prune(w, x, &b, &mut c1, &mut x1)
}

fn stitch(w: &[usize; 4096], x: &[f64; 4096]) -> bool {
    let mut x1 = *x;
    let mut c1 = *w;
    let mut c2 = *w;
    let mut c3 = *w;
    let mut c4 = *w;
    stitching::stitch(w, x, &mut x1, &mut c1, &mut c2, &mut c3, &mut c4)
}

fn area_pass(w: &[usize; 4096], x: &[f64; 4096]) -> bool {
    let mut c1 = *w;
    stitching::area_pass(w, x, &mut c1)
}

// The entries that begin with an outline and write no list.
fn behind_outline(entry: Entry, w: &[usize], x: &[f64]) -> bool {
    let p = words::behind(w, 1);
    let (outline, r, y) = (words::list(w, x, 1), words::from(w, p), words::from(x, p));
    match entry {
        Entry::ViewVertex => views::view_vertex(outline, r, y),
        Entry::Create => views::create(outline, r, y),
        Entry::CreateOnSingleSegment => views::create_on_single_segment(outline, r, y),
        Entry::FromEntirePline => views::from_entire_pline(outline, r),
        Entry::ValidateForSource => views::validate_for_source(outline, r, y),
        Entry::SliceSpan => starts::slice_span(outline, r, y),
        Entry::FromSlicePoints => starts::from_slice_points(outline, r, y),
        Entry::FromNewStart => starts::from_new_start(outline, r, y),
        _ => false,
    }
}

fn of_entry(entry: Entry, w: &[usize; 4096], x: &[f64; 4096]) -> bool {
    match entry {
        Entry::CutOrder => cut_order(w, x),
        Entry::Candidates => candidates(w, x),
        Entry::Prune => prune(w, x),
        Entry::Stitch => stitch(w, x),
        Entry::AreaPass => area_pass(w, x),
        _ => behind_outline(entry, w, x),
    }
}

// The entry answers what the case says.
pub(crate) fn holds(entry: Entry, bytes: &[u8]) -> bool {
    let mut w = [0usize; 4096];
    fill_counts(bytes, &mut w);
    let mut x = [0.0; 4096];
    fill_numbers(&w, &mut x);
    of_entry(entry, &w, &x)
}
