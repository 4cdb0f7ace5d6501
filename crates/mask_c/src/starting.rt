// Views that start anywhere.
ghost use Rattle.std.specs.Prelude.{◌≡◌, eqb};
ghost use Rattle.basis.specs.Number.{tolerance_of};
ghost use Rattle.view_span.specs.Span.{ends_of};
ghost use Rattle.view_start_entries.specs.SpanEntry.{span_answer};
ghost use Rattle.view_start_entries.specs.SliceEntry.{slice_answer};
ghost use Rattle.view_start_entries.specs.NewStartEntry.{new_start_answer};

use outline::point::Point;
use view_entries::answer::ViewAnswer;
use view_entries::input::Split;
use view_start_entries::answer::SpanAnswer;

// The segment that the view between two points starts on, and how many segments further on it ends: what the host has to split.
#[unsafe(no_mangle)]
pub extern "C" fn mask_slice_span(
    outline: &[f64],
    vc: usize,
    closed: u32,
    start_index: usize,
    start_point: Point,
    end_index: usize,
    end_point: Point,
    tolerance_x: f64,
    tolerance_y: f64,
) -> SpanAnswer
    ensures { result ≡ span_answer outline.now vc closed (ends_of (eqb closed 1) start_index start_point end_index end_point) (tolerance_of tolerance_x tolerance_y) }
{
    mask::starting::mask_slice_span(
        outline,
        vc,
        closed,
        start_index,
        start_point,
        end_index,
        end_point,
        tolerance_x,
        tolerance_y,
    )
}

// The view from a point on one segment to a point on another, or none where nothing lies between them.
// It calls what mask's function calls: by way of that one the splits are copied once more, and the call takes 528 bytes of stack, where include/mask.h says 512.
#[unsafe(no_mangle)]
pub extern "C" fn mask_from_slice_points(
    outline: &[f64],
    vc: usize,
    closed: u32,
    start_index: usize,
    start_point: Point,
    end_index: usize,
    end_point: Point,
    tolerance_x: f64,
    tolerance_y: f64,
    start_split: Split,
    end_split: Split,
) -> ViewAnswer
    ensures { result ≡ slice_answer outline.now vc closed (ends_of (eqb closed 1) start_index start_point end_index end_point) (tolerance_of tolerance_x tolerance_y) start_split end_split }
{
    view_start_entries::slice_points::entry(
        outline,
        vc,
        closed,
        start_index,
        start_point,
        end_index,
        end_point,
        tolerance_x,
        tolerance_y,
        start_split,
        end_split,
    )
}

// The view that starts a closed outline at a point of it and goes once round, or leads from a point of an open one to its last vertex; none where that point is the last vertex.
// It calls what mask's function calls: by way of that one the splits are copied once more, and the call takes 528 bytes of stack, where include/mask.h says 512.
#[unsafe(no_mangle)]
pub extern "C" fn mask_from_new_start(
    outline: &[f64],
    vc: usize,
    closed: u32,
    start_index: usize,
    start_point: Point,
    tolerance_x: f64,
    tolerance_y: f64,
    start_split: Split,
    end_split: Split,
) -> ViewAnswer
    ensures { result ≡ new_start_answer outline.now vc closed start_index start_point (tolerance_of tolerance_x tolerance_y) start_split end_split }
{
    view_start_entries::new_start::entry(
        outline,
        vc,
        closed,
        start_index,
        start_point,
        tolerance_x,
        tolerance_y,
        start_split,
        end_split,
    )
}
