// Writing points and vertices into lent room, and pairs of counts beside them. A place is that of a list's element.
ghost use Rattle.std.specs.Prelude.{◌≡◌, [], ◌∷◌};
ghost use Rattle.std.proofs.lemmas.List.Edits.{sets};
ghost use Rattle.basis.specs.Room.{RoomFor};
ghost use Rattle.outline.specs.Points.{point_numbers, vertex_numbers};

use crate::point::{Point, Vertex};

// Writes a point's two numbers from place `at` on.
pub fn put_point(room: &mut [f64], at: usize, p: Point)
    requires { RoomFor room.old at 2 }
    ensures { room.new ≡ sets room.old at (point_numbers p) }
{
    room[at] = p.x;
    room[at + 1] = p.y;
}

// Writes a vertex's three numbers from place `at` on.
pub fn put_vertex(room: &mut [f64], at: usize, v: Vertex)
    requires { RoomFor room.old at 3 }
    ensures { room.new ≡ sets room.old at (vertex_numbers v) }
{
    room[at] = v.x;
    room[at + 1] = v.y;
    room[at + 2] = v.bulge;
}

// Writes two counts from place `at` on.
pub fn put_pair(room: &mut [usize], at: usize, a: usize, b: usize)
    requires { RoomFor room.old at 2 }
    ensures { room.new ≡ sets room.old at (a ∷ b ∷ []) }
{
    room[at] = a;
    room[at + 1] = b;
}
