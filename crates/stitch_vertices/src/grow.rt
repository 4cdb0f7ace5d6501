// Document 01, "Stitching": adding to a chain. A chain is the first n vertices of the room that is lent.
ghost use Rattle.std.specs.Prelude.{◌≡◌};
ghost use Rattle.stitch_vertices.specs.Held.{chain_of, repeats, Held, OneMore, Added, ViewMore, Extended};

use basis::number::Tolerance;
use outline::point::{Point, Vertex};
use outline::{point, read, write};
use view::data::ViewData;
use view::vertex;

// The vertex agrees in position with the chain's last. A chain of no vertices has no last.
#[tactic(auto, using(crate::proofs::Growing::repeating))]
fn is_repeat(room: &[f64], n: usize, v: Vertex, t: Tolerance) -> bool
    requires { Held room.now n }
    ensures { result ≡ repeats t (chain_of room.now n) v }
{
    if n == 0 {
        return false;
    }
    let last = read::vertex_at(room, n - 1);
    point::points_agree(Point::from(last), Point::from(v), t)
}

// Adds the vertex, or gives its bulge to the chain's last where the two agree in position. Says how many vertices the chain has now.
pub(crate) fn add_or_replace_vertex(room: &mut [f64], n: usize, v: Vertex, t: Tolerance) -> usize
    requires { OneMore room.old n }
    ensures { Added t v n room.old result room.new }
{
    if is_repeat(room, n, v, t) {
        let last_bulge = 3 * n - 1;
        room[last_bulge] = v.bulge;
        return n;
    }
    write::put_vertex(room, 3 * n, v);
    n + 1
}

// Adds all vertices of a view, one after the other. Says how many vertices the chain has now.
pub fn extend_remove_repeat(
    room: &mut [f64],
    n: usize,
    outline: &[f64],
    vc: usize,
    view: ViewData,
    t: Tolerance,
) -> usize
    requires { ViewMore room.old n outline.now vc view }
    ensures { Extended t outline.now vc view n room.old result room.new }
{
    let count = view.end_index_offset + 2;
    let mut m = n;
    for k in 0..count {
        let v = vertex::vertex_of(outline, vc, view, k);
        m = add_or_replace_vertex(room, m, v, t);
    }
    m
}
