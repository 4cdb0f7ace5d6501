#![tactic(auto, unfolding(basis::specs::Refuse::first_of, crate::specs::StartRows::back_fault))]
// The refusals that the three entries share, a table in parts, and the library's own data made of what hosts hand in.
ghost use Rattle.std.specs.Prelude.{◌≡◌, not, ◌++◌};
ghost use Rattle.basis.specs.Number.{all_within};
ghost use Rattle.basis.specs.Refuse.{first_of};
ghost use Rattle.basis.specs.Refusals.{found};
ghost use Rattle.outline.specs.Points.{point_numbers};
ghost use Rattle.view_start_entries.specs.StartRows.{splits_of, ends_numbers, split_numbers, back_fault, shape_rows, split_rows, index_rows};

use basis::number::Tolerance;
use basis::refuse::Refusal;
use basis::{number, refuse};
use outline::point::Point;
use view_entries::input::Split;
use view_span::span::Ends;
use view_start::slice_points::Splits;

// Of the two splits what is used.
pub(crate) fn splits_of(start: Split, end: Split) -> Splits
    ensures { result ≡ splits_of start end }
{
    Splits {
        start_bulge: start.updated_start.bulge,
        start_vertex: start.split_vertex,
        end_part: end.updated_start,
    }
}

// Number 5, of a point.
pub(crate) fn bad_point(p: Point) -> bool
    ensures { result ≡ not (all_within (point_numbers p)) }
{
    let a = [p.x, p.y];
    !number::all_in_range(&a)
}

// Number 5, of both points.
pub(crate) fn bad_points(e: Ends) -> bool
    ensures { result ≡ not (all_within (ends_numbers e)) }
{
    let p = e.start_point;
    let q = e.end_point;
    let a = [p.x, p.y, q.x, q.y];
    !number::all_in_range(&a)
}

// Number 5, of a split.
fn bad_split(s: Split) -> bool
    ensures { result ≡ not (all_within (split_numbers s)) }
{
    let p = s.updated_start;
    let q = s.split_vertex;
    let a = [p.x, p.y, p.bulge, q.x, q.y, q.bulge];
    !number::all_in_range(&a)
}

// Number 15: on an open outline the start index is above the end index.
fn runs_back(e: Ends) -> bool
    ensures { result ≡ back_fault e }
{
    !e.closed && e.end_index < e.start_index
}

// Numbers 1 to 4, and 5 of the outline.
pub(crate) fn shape_refusal(
    outline: &[f64],
    vc: usize,
    closed: u32,
    t: Tolerance,
) -> Result<(), Refusal>
    ensures { found result ≡ first_of (shape_rows outline.now vc closed t) }
{
    refuse::when(refuse::bad_length(outline.len(), 3, vc), Refusal::Length)?;
    refuse::when(refuse::bad_size(vc), Refusal::Outline)?;
    refuse::when(refuse::bad_choice(closed), Refusal::Code)?;
    refuse::when(!number::in_tolerance(t), Refusal::Tolerance)?;
    refuse::when(!number::all_in_range(outline), Refusal::Number)
}

// Number 5, of the splits.
pub(crate) fn split_refusal(start: Split, end: Split) -> Result<(), Refusal>
    ensures { found result ≡ first_of (split_rows start end) }
{
    refuse::when(bad_split(start), Refusal::Number)?;
    refuse::when(bad_split(end), Refusal::Number)
}

// Numbers 6 and 15.
pub(crate) fn index_refusal(vc: usize, e: Ends) -> Result<(), Refusal>
    ensures { found result ≡ first_of (index_rows vc e) }
{
    refuse::when(vc <= e.start_index, Refusal::Index)?;
    refuse::when(vc <= e.end_index, Refusal::Index)?;
    refuse::when(runs_back(e), Refusal::Backward)
}
