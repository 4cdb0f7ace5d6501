#![tactic(auto, using(crate::proofs::Putting::putting))]
// Writing candidates into lent room.
ghost use Rattle.std.specs.Prelude.{◌≡◌, ◌++◌};
ghost use Rattle.std.proofs.lemmas.List.Edits.{sets};
ghost use Rattle.basis.specs.Room.{RoomFor};
ghost use Rattle.outline.specs.Points.{vertex_numbers};
ghost use Rattle.view.specs.View.{view_numbers};
ghost use Rattle.candidate_write.specs.Lent.{lent, Same};
ghost use Rattle.candidate.specs.Steps.{PutFit, Put};

use candidate::at_cut::Candidate;
use outline::point::Vertex;
use outline::write;
use slice::data::Shape;
use slice::write as shapes;
use view::data::ViewData;

// The six numbers of a view from place `at` on: they are the shape of the slice that it may become.
fn put_view(cand: &mut [f64], at: usize, v: ViewData)
    requires { RoomFor cand.old at 6 }
    ensures { cand.new ≡ sets cand.old at (view_numbers v) }
{
    let updated_start = v.updated_start;
    let end_point = v.end_point;
    let shape = Shape {
        updated_start,
        end_bulge: v.updated_end_bulge,
        end_point,
    };
    shapes::put_shape(cand, at, shape);
}

// The two vertices to be tested, from place `at` on.
fn put_probe(probe: &mut [f64], at: usize, a: Vertex, b: Vertex)
    requires { RoomFor probe.old at 6 }
    ensures { probe.new ≡ sets probe.old at (vertex_numbers a ++ vertex_numbers b) }
{
    write::put_vertex(probe, at, a);
    write::put_vertex(probe, at + 3, b);
}

// The lists lent to candidates: start and offset of each, the six numbers of its view, and the two vertices to be tested.
#[derive(Drop)]
pub struct Lent<'a> {
    pub at: &'a mut [usize],
    pub cand: &'a mut [f64],
    pub probe: &'a mut [f64],
}

impl Lent<'_> {
    // Writes a candidate after the m that stand there already, and says how many there are now.
    pub(crate) fn put(&mut self, m: usize, c: Option<Candidate>) -> usize
        requires { PutFit (lent self.old) m }
        ensures same { Same self.old self.new }
        ensures written { Put c m (lent self.old) result (lent self.new) }
    {
        let Some(c) = c else {
            return m;
        };
        write::put_pair(self.at, 2 * m, c.view.start_index, c.view.end_index_offset);
        put_view(self.cand, 6 * m, c.view);
        put_probe(self.probe, 6 * m, c.from, c.to);
        m + 1
    }
}
