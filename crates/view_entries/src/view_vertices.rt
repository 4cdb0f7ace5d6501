// All vertices of a view in one call.
ghost use Rattle.std.specs.Prelude.{◌≡◌};
ghost use Rattle.basis.specs.Refusals.{found};
ghost use Rattle.view_entries.specs.ViewVertices.{view_vertices_refusal, VerticesLeft};

use crate::input::View;
use crate::view_vertex;
use basis::answer::CountAnswer;
use basis::refuse::Refusal;
use basis::{answer, refuse};
use view::data::ViewData;
use view::list;

// The numbers of `mask_view_vertex`, then 9. The need is worked out only where those found nothing.
fn refusal(outline: &[f64], vc: usize, v: View, len: usize) -> Result<(), Refusal>
    ensures { found result ≡ view_vertices_refusal outline.now vc v len }
{
    view_vertex::refusal(outline, vc, v)?;
    refuse::when(len < 3 * (v.end_index_offset + 2), Refusal::Room)
}

// The vertices of a view, three numbers each, and how many there are.
pub fn entry(outline: &[f64], vc: usize, view: View, vertices: &mut [f64]) -> CountAnswer
    ensures { VerticesLeft outline.now vc view vertices.old result vertices.new }
{
    match refusal(outline, vc, view, vertices.len()) {
        Err(refusal) => answer::count_refused(refusal.number()),
        Ok(()) => {
            let v = ViewData::from(view);
            list::write_vertices(outline, vc, v, vertices);
            answer::counted_as(v.end_index_offset + 2)
        }
    }
}
