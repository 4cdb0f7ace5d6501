// Views.
ghost use Rattle.std.specs.Prelude.{◌≡◌};
ghost use Rattle.basis.specs.Number.{tolerance_of};
ghost use Rattle.view_entries.specs.Inputs.{walk_of};
ghost use Rattle.view_entries.specs.ViewVertex.{view_vertex_answer};
ghost use Rattle.view_entries.specs.ViewVertices.{VerticesLeft};
ghost use Rattle.view_entries.specs.CreateEntry.{create_answer};
ghost use Rattle.view_entries.specs.SingleEntry.{single_answer};
ghost use Rattle.view_entries.specs.EntireEntry.{entire_answer};
ghost use Rattle.verdict_entries.specs.ValidateEntry.{validate_answer};

use basis::answer::CountAnswer;
use outline::point::{Point, Vertex};
use verdict_answer::answer::VerdictAnswer;
use view_entries::answer::{VertexAnswer, ViewAnswer};
use view_entries::input::{Split, View};

// The vertex of a view at an index, or "no vertex" beyond its last.
pub fn mask_view_vertex(outline: &[f64], vc: usize, view: View, index: usize) -> VertexAnswer
    ensures { result ≡ view_vertex_answer outline.now vc view index }
{
    view_entries::view_vertex::entry(outline, vc, view, index)
}

// All vertices of a view, three numbers each: vertex k is what `mask_view_vertex` answers for k.
pub fn mask_view_vertices(
    outline: &[f64],
    vc: usize,
    view: View,
    vertices: &mut [f64],
) -> CountAnswer
    ensures { VerticesLeft outline.now vc view vertices.old result vertices.new }
{
    view_entries::view_vertices::entry(outline, vc, view, vertices)
}

// The view that walks from its start over `traverse_count` segments to an end on the segment at `intersect_index`.
pub fn mask_create(
    outline: &[f64],
    vc: usize,
    start_index: usize,
    end_intersect: Point,
    intersect_index: usize,
    updated_start: Vertex,
    traverse_count: usize,
    tolerance_x: f64,
    tolerance_y: f64,
    split: Split,
) -> ViewAnswer
    ensures { result ≡ create_answer outline.now vc (walk_of start_index end_intersect intersect_index updated_start traverse_count split) (tolerance_of tolerance_x tolerance_y) split }
{
    view_entries::create::entry(
        outline,
        vc,
        start_index,
        end_intersect,
        intersect_index,
        updated_start,
        traverse_count,
        tolerance_x,
        tolerance_y,
        split,
    )
}

// The view between two points of one segment, or none where they agree.
pub fn mask_create_on_single_segment(
    outline: &[f64],
    vc: usize,
    start_index: usize,
    updated_start: Vertex,
    end_intersect: Point,
    tolerance_x: f64,
    tolerance_y: f64,
) -> ViewAnswer
    ensures { result ≡ single_answer outline.now vc start_index updated_start end_intersect (tolerance_of tolerance_x tolerance_y) }
{
    view_entries::single::entry(
        outline,
        vc,
        start_index,
        updated_start,
        end_intersect,
        tolerance_x,
        tolerance_y,
    )
}

// The view of a whole outline, closed or open.
pub fn mask_from_entire_pline(outline: &[f64], vc: usize, closed: u32) -> ViewAnswer
    ensures { result ≡ entire_answer outline.now vc closed }
{
    view_entries::entire::entry(outline, vc, closed)
}

// The verdict on view data over an outline, with the host's answers whether the start and the end lie on their segments. A view of another edition than the outline's is refused (14).
pub fn mask_validate_for_source(
    outline: &[f64],
    vc: usize,
    edition: u32,
    view: View,
    view_edition: u32,
    start_on_segment: u32,
    end_on_segment: u32,
) -> VerdictAnswer
    ensures { result ≡ validate_answer outline.now vc edition view view_edition start_on_segment end_on_segment }
{
    verdict_entries::validate::entry(
        outline,
        vc,
        edition,
        view,
        view_edition,
        start_on_segment,
        end_on_segment,
    )
}
