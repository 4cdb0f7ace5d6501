#![tactic(auto, unfolding(crate::specs::Unmoved::same_bits, crate::specs::Unmoved::same_vertex))]
// The vertices of one view on two outlines, number after number.
ghost use Rattle.std.specs.Prelude.{◌≡◌};
ghost use Rattle.unmoved.specs.Unmoved.{Numbers, Vertices, BothFit, same_bits, same_vertex, same_at, moved};

use outline::point::Vertex;
use view::data::ViewData;
use view::vertex;

// The same bits: +0 is not -0.
fn same_number(a: f64, b: f64) -> bool
    requires { Numbers a b }
    ensures { result ≡ same_bits a b }
{
    f64::to_bits(a) == f64::to_bits(b)
}

fn same_vertex(a: Vertex, b: Vertex) -> bool
    requires { Vertices a b }
    ensures { result ≡ same_vertex a b }
{
    same_number(a.x, b.x) && (same_number(a.y, b.y) && same_number(a.bulge, b.bulge))
}

// Vertex k of the view, on the one outline and on the other.
fn same_at(
    outline1: &[f64],
    vc1: usize,
    outline2: &[f64],
    vc2: usize,
    v: ViewData,
    k: usize,
) -> bool
    requires { BothFit outline1.now vc1 outline2.now vc2 v }
    ensures { result ≡ same_at outline1.now vc1 outline2.now vc2 v k }
{
    let a = vertex::vertex_of(outline1, vc1, v, k);
    let b = vertex::vertex_of(outline2, vc2, v, k);
    same_vertex(a, b)
}

// The lowest number of a vertex that differs, or none where no vertex does. The first and the last come from the view alone: they are not looked at.
pub fn first_moved(
    outline1: &[f64],
    vc1: usize,
    outline2: &[f64],
    vc2: usize,
    v: ViewData,
) -> Option<usize>
    requires { BothFit outline1.now vc1 outline2.now vc2 v }
    ensures { result ≡ moved outline1.now vc1 outline2.now vc2 v }
{
    for k in 1..v.end_index_offset + 1 {
        if !same_at(outline1, vc1, outline2, vc2, v, k) {
            return Some(k);
        }
    }
    None
}
