// What hosts hand in by value, and the library's own data made of it.
ghost use Rattle.std.specs.Prelude.{◌≡◌, not, ◌++◌};
ghost use Rattle.basis.specs.Number.{all_within};
ghost use Rattle.outline.specs.Points.{point_numbers, vertex_numbers};
ghost use Rattle.view.specs.View.{view_numbers};
ghost use Rattle.view_entries.specs.Inputs.{view_data, flat_view, walk_numbers};

use basis::number;
use outline::point::{Point, Vertex};
use view::create::Walk;
use view::data::ViewData;

#[repr(C)]
#[derive(Clone, Copy)]
pub struct View {
    pub start_index: usize,
    pub end_index_offset: usize,
    pub updated_start: Vertex,
    pub updated_end_bulge: f64,
    pub end_point: Point,
    pub inverted_direction: u32,
}

// The host's split of a segment at a point: its first part, and the vertex at the point.
#[repr(C)]
#[derive(Clone, Copy)]
pub struct Split {
    pub updated_start: Vertex,
    pub split_vertex: Vertex,
}

// The view's data: 1 is inverted.
impl From<View> for ViewData {
    ghost from_gives = { λ v result. result ≡ view_data v };

    fn from(v: View) -> ViewData {
        ViewData {
            start_index: v.start_index,
            end_index_offset: v.end_index_offset,
            updated_start: v.updated_start,
            updated_end_bulge: v.updated_end_bulge,
            end_point: v.end_point,
            inverted_direction: v.inverted_direction == 1,
        }
    }
}

// The view's data as hosts take it.
impl From<ViewData> for View {
    ghost from_gives = { λ v result. result ≡ flat_view v };

    fn from(v: ViewData) -> View {
        View {
            start_index: v.start_index,
            end_index_offset: v.end_index_offset,
            updated_start: v.updated_start,
            updated_end_bulge: v.updated_end_bulge,
            end_point: v.end_point,
            inverted_direction: u32::from(v.inverted_direction),
        }
    }
}

// Number 5, of the view's own numbers.
pub fn bad_view_numbers(v: View) -> bool
    ensures { result ≡ not (all_within (view_numbers (view_data v))) }
{
    let u = v.updated_start;
    let e = v.end_point;
    let a = [u.x, u.y, u.bulge, v.updated_end_bulge, e.x, e.y];
    !number::all_in_range(&a)
}

// Number 5, of all that `create` is handed beside the outline and the tolerance.
pub(crate) fn bad_walk_numbers(w: Walk, s: Split) -> bool
    ensures { result ≡ not (all_within (walk_numbers w s)) }
{
    let u = w.updated_start;
    let e = w.end_intersect;
    let p = s.updated_start;
    let q = s.split_vertex;
    let a = [
        u.x, u.y, u.bulge, e.x, e.y, p.x, p.y, p.bulge, q.x, q.y, q.bulge,
    ];
    !number::all_in_range(&a)
}

// Number 5, of a vertex and a point.
pub(crate) fn bad_ends(u: Vertex, e: Point) -> bool
    ensures { result ≡ not (all_within (vertex_numbers u ++ point_numbers e)) }
{
    let a = [u.x, u.y, u.bulge, e.x, e.y];
    !number::all_in_range(&a)
}
