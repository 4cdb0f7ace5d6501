// All vertices of a view, written into lent room.
ghost use Rattle.std.specs.Prelude.{◌≡◌};
ghost use Rattle.basis.specs.Number.{+0};
ghost use Rattle.basis.specs.Room.{room_of};
ghost use Rattle.view.specs.View.{vertex_count, view_vertices, ListFit};

use crate::data::ViewData;
use crate::vertex;
use outline::write;

// Writes the view's vertices, three numbers each, at the front of the room.
pub fn write_vertices(outline: &[f64], vc: usize, v: ViewData, room: &mut [f64])
    requires { ListFit outline.now vc v room.old }
    ensures { room.new ≡ room_of +0 3 (vertex_count v) (view_vertices outline.now vc v) room.old }
{
    let count = v.end_index_offset + 2;
    for k in 0..count {
        write::put_vertex(room, 3 * k, vertex::vertex_of(outline, vc, v, k));
    }
}
