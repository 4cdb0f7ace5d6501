#![tactic(auto, unfolding(crate::specs::Slice::codes_at, crate::specs::Slice::shape_at, crate::specs::Slice::slice_view))]
// Reading a slice.
ghost use Rattle.std.specs.Prelude.{◌≡◌};
ghost use Rattle.slice.specs.Slice.{codes_at, shape_at, view_of, slice_view};
ghost use Rattle.slice.specs.Ready.{CodesThere, ShapeThere, SliceThere};

use crate::data::{CODE_WIDTH, Codes, SHAPE_WIDTH, Shape};
use outline::point::{Point, Vertex};
use view::data::ViewData;

// The codes of slice number i.
pub fn codes_at(slice_at: &[usize], i: usize) -> Codes
    requires { CodesThere slice_at.now i }
    ensures { result ≡ codes_at slice_at.now i }
{
    let a = CODE_WIDTH * i;
    Codes {
        source: slice_at[a],
        inverted: slice_at[a + 1],
        start: slice_at[a + 2],
        offset: slice_at[a + 3],
    }
}

// The shape of slice number i.
pub fn shape_at(slice: &[f64], i: usize) -> Shape
    requires { ShapeThere slice.now i }
    ensures { result ≡ shape_at slice.now i }
{
    let a = SHAPE_WIDTH * i;
    Shape {
        updated_start: Vertex {
            x: slice[a],
            y: slice[a + 1],
            bulge: slice[a + 2],
        },
        end_bulge: slice[a + 3],
        end_point: Point {
            x: slice[a + 4],
            y: slice[a + 5],
        },
    }
}

// The view that these codes and this shape are.
fn view_of(c: Codes, s: Shape) -> ViewData
    ensures { result ≡ view_of c s }
{
    let updated_start = s.updated_start;
    let end_point = s.end_point;
    ViewData {
        start_index: c.start,
        end_index_offset: c.offset,
        updated_start,
        updated_end_bulge: s.end_bulge,
        end_point,
        inverted_direction: c.inverted == 1,
    }
}

// The view of slice number i.
pub fn view_at(slice_at: &[usize], slice: &[f64], i: usize) -> ViewData
    requires { SliceThere slice_at.now slice.now i }
    ensures { result ≡ slice_view slice_at.now slice.now i }
{
    view_of(codes_at(slice_at, i), shape_at(slice, i))
}
