#![tactic(auto, unfolding(basis::specs::Refuse::first_of, crate::specs::ViewVertex::view_vertex_refusal))]
// The entry `mask_view_vertex`, and the refusals that it shares with `mask_view_vertices`.
ghost use Rattle.std.specs.Prelude.{◌≡◌};
ghost use Rattle.basis.specs.Refusals.{found};
ghost use Rattle.view_entries.specs.ViewVertex.{view_vertex_refusal, view_vertex_answer};

use crate::answer::VertexAnswer;
use crate::input::View;
use crate::{answer, input};
use basis::refuse::Refusal;
use basis::{number, refuse};
use view::data::ViewData;
use view::vertex;

pub(crate) fn refusal(outline: &[f64], vc: usize, v: View) -> Result<(), Refusal>
    ensures { found result ≡ view_vertex_refusal outline.now vc v }
{
    refuse::when(refuse::bad_length(outline.len(), 3, vc), Refusal::Length)?;
    refuse::when(refuse::bad_size(vc), Refusal::Outline)?;
    refuse::when(refuse::bad_choice(v.inverted_direction), Refusal::Code)?;
    refuse::when(!number::all_in_range(outline), Refusal::Number)?;
    refuse::when(input::bad_view_numbers(v), Refusal::Number)?;
    refuse::when(vc <= v.start_index, Refusal::Index)?;
    refuse::when(vc < v.end_index_offset, Refusal::Count)
}

// The vertex of a view at an index, or "no vertex" beyond its last.
pub fn entry(outline: &[f64], vc: usize, view: View, index: usize) -> VertexAnswer
    ensures { result ≡ view_vertex_answer outline.now vc view index }
{
    match refusal(outline, vc, view) {
        Err(refusal) => answer::vertex_refused(refusal.number()),
        Ok(()) => {
            let v = ViewData::from(view);
            answer::vertex_found(vertex::get_vertex(outline, vc, v, index))
        }
    }
}
