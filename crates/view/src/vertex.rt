#![tactic(auto, unfolding(crate::specs::View::forward_at, crate::specs::View::turned_at, crate::specs::View::inverted_at, crate::specs::View::vertex_of, crate::specs::View::get_vertex))]
// The vertices of a view.
ghost use Rattle.std.specs.Prelude.{◌≡◌, ◌+◌};
ghost use Rattle.outline.specs.Points.{with_bulge};
ghost use Rattle.outline.specs.Outline.{Near, outline_at};
ghost use Rattle.view.specs.View.{Fit, forward_at, turned_at, inverted_at, vertex_of, get_vertex};

use crate::data::ViewData;
use outline::point::Vertex;
use outline::read;

// The outline's vertex at an index that wraps, with another bulge.
fn bulged(outline: &[f64], vc: usize, i: usize, bulge: f64) -> Vertex
    requires { Near outline.now vc i }
    ensures { result ≡ with_bulge (outline_at outline.now vc i) bulge }
{
    read::outline_at(outline, vc, i).with_bulge(bulge)
}

fn forward(outline: &[f64], vc: usize, v: ViewData, k: usize) -> Vertex
    requires { Fit outline.now vc v }
    ensures { result ≡ forward_at outline.now vc v k }
{
    let start = v.start_index;
    let offset = v.end_index_offset;
    if k == 0 {
        return v.updated_start;
    }
    if k < offset {
        return read::outline_at(outline, vc, start + k);
    }
    if k == offset {
        return bulged(outline, vc, start + offset, v.updated_end_bulge);
    }
    v.end_point.vertex(0.0)
}

// The vertex after place i with the negated bulge of the one at i.
fn turned(outline: &[f64], vc: usize, i: usize) -> Vertex
    requires { Near outline.now vc (i + 1) }
    ensures { result ≡ turned_at outline.now vc i }
{
    bulged(outline, vc, i + 1, -read::outline_at(outline, vc, i).bulge)
}

fn inverted(outline: &[f64], vc: usize, v: ViewData, k: usize) -> Vertex
    requires { Fit outline.now vc v }
    ensures { result ≡ inverted_at outline.now vc v k }
{
    let start = v.start_index;
    let offset = v.end_index_offset;
    if k == 0 {
        return v.end_point.vertex(-v.updated_end_bulge);
    }
    if k < offset {
        return turned(outline, vc, start + (offset - k));
    }
    let first = v.updated_start;
    if k == offset {
        return bulged(outline, vc, start + 1, -first.bulge);
    }
    first.with_bulge(0.0)
}

// The vertex at an index up to offset + 1.
pub fn vertex_of(outline: &[f64], vc: usize, v: ViewData, k: usize) -> Vertex
    requires { Fit outline.now vc v }
    ensures { result ≡ vertex_of outline.now vc v k }
{
    if v.inverted_direction {
        inverted(outline, vc, v, k)
    } else {
        forward(outline, vc, v, k)
    }
}

// The vertex at any index, or none beyond the last.
pub fn get_vertex(outline: &[f64], vc: usize, v: ViewData, k: usize) -> Option<Vertex>
    requires { Fit outline.now vc v }
    ensures { result ≡ get_vertex outline.now vc v k }
{
    if v.end_index_offset + 2 <= k {
        None
    } else {
        Some(vertex_of(outline, vc, v, k))
    }
}
