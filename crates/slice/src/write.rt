// Writing a slice into lent room.
ghost use Rattle.std.specs.Prelude.{◌≡◌, [], ◌∷◌, ◌+◌};
ghost use Rattle.std.proofs.lemmas.List.Edits.{sets};
ghost use Rattle.basis.specs.Room.{RoomFor};
ghost use Rattle.slice.specs.Slice.{code_width, shape_width, code_list, shape_list, slice_of};
ghost use Rattle.slice.specs.Ready.{rooms_in, Same, PutFit, Placed};

use crate::data::{CODE_WIDTH, Codes, SHAPE_WIDTH, Shape};
use outline::write;

// The three lists that are lent for slices: the codes of each, its shape, its edition.
#[derive(Drop)]
pub struct Lent<'a> {
    pub at: &'a mut [usize],
    pub shape: &'a mut [f64],
    pub edition: &'a mut [u32],
}

// Writes the codes from place `at` on.
fn put_codes(room: &mut [usize], at: usize, c: Codes)
    requires { RoomFor room.old at code_width }
    ensures { room.new ≡ sets room.old at (code_list c) }
{
    write::put_pair(room, at, c.source, c.inverted);
    write::put_pair(room, at + 2, c.start, c.offset);
}

// Writes the shape's six numbers from place `at` on.
pub fn put_shape(room: &mut [f64], at: usize, s: Shape)
    requires { RoomFor room.old at shape_width }
    ensures { room.new ≡ sets room.old at (shape_list s) }
{
    write::put_vertex(room, at, s.updated_start);
    room[at + 3] = s.end_bulge;
    write::put_point(room, at + 4, s.end_point);
}

// Writes a slice behind the n that stand there.
pub fn put_slice(c: Codes, s: Shape, edition: u32, lent: &mut Lent, n: usize)
    requires { PutFit (rooms_in lent.old) n }
    ensures same { Same lent.old lent.new }
    ensures placed { Placed (slice_of c s edition ∷ []) (rooms_in lent.old) n (n + 1) (rooms_in lent.new) }
{
    put_codes(lent.at, CODE_WIDTH * n, c);
    put_shape(lent.shape, SHAPE_WIDTH * n, s);
    lent.edition[n] = edition;
}
