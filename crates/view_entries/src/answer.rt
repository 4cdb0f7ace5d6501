// What the entries answer: flat structs, by value, with numbers and flags beside the values, as the C interface has them. On a refusal all but its number is 0.
ghost use Rattle.std.specs.Prelude.{◌≡◌};
ghost use Rattle.view_entries.specs.Answers.{vertex_refused, vertex_found, view_refused, view_made, segment_made};

use crate::input::View;
use outline::point::{Point, Vertex};
use view::data::ViewData;

#[repr(C)]
#[derive(Clone, Copy)]
pub struct VertexAnswer {
    pub refusal: u32,
    pub found: u32,
    pub vertex: Vertex,
}

#[repr(C)]
#[derive(Clone, Copy)]
pub struct ViewAnswer {
    pub refusal: u32,
    pub found: u32,
    pub view: View,
}

pub const NO_POINT: Point = Point { x: 0.0, y: 0.0 };

pub const NO_VERTEX: Vertex = Vertex {
    x: 0.0,
    y: 0.0,
    bulge: 0.0,
};

const NO_VIEW: View = View {
    start_index: 0,
    end_index_offset: 0,
    updated_start: NO_VERTEX,
    updated_end_bulge: 0.0,
    end_point: NO_POINT,
    inverted_direction: 0,
};

// No vertex, with a refusal or without.
pub(crate) fn vertex_refused(number: u32) -> VertexAnswer
    ensures { result ≡ vertex_refused number }
{
    VertexAnswer {
        refusal: number,
        found: 0,
        vertex: NO_VERTEX,
    }
}

pub(crate) fn vertex_found(f: Option<Vertex>) -> VertexAnswer
    ensures { result ≡ vertex_found f }
{
    match f {
        Some(v) => VertexAnswer {
            refusal: 0,
            found: 1,
            vertex: v,
        },
        None => vertex_refused(0),
    }
}

// No view, with a refusal or without.
pub fn view_refused(number: u32) -> ViewAnswer
    ensures { result ≡ view_refused number }
{
    ViewAnswer {
        refusal: number,
        found: 0,
        view: NO_VIEW,
    }
}

pub(crate) fn view_made(v: ViewData) -> ViewAnswer
    ensures { result ≡ view_made v }
{
    ViewAnswer {
        refusal: 0,
        found: 1,
        view: View::from(v),
    }
}

pub fn segment_made(s: Option<ViewData>) -> ViewAnswer
    ensures { result ≡ segment_made s }
{
    match s {
        Some(v) => view_made(v),
        None => view_refused(0),
    }
}
