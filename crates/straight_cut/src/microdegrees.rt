// Whole microdegrees that came as an f64, exactly.
ghost use Rattle.std.specs.Prelude.{◌≡◌, true, pos, slice_set};
ghost use Rattle.std.proofs.lemmas.List.Edits.{sets};
ghost use Rattle.basis.specs.Room.{room_of, RoomFor};
ghost use Rattle.std.specs.Float.{binary64};
ghost use Rattle.std.specs.Float.Ieee.{of_int};
ghost use Rattle.whole.specs.Fit.{Near};
ghost use Rattle.straight_cut.specs.Microdegrees.{is_whole, value_of, readable, whole_vertex, wholes_of, WholesFit, WholesRoom};

use outline::read;
use straight_entries::range;

// A whole number in the range of a mask as an f64, which holds it exactly.
fn float_of(z: i64) -> f64
    requires { Near 400000000 z }
    ensures { result ≡ of_int binary64 z }
{
    z as f64
}

// Whether x is a whole number of microdegrees in the range of a mask.
pub(crate) fn is_whole(x: f64) -> bool
    ensures { result ≡ is_whole x }
{
    if x >= -9223372036854775808.0 {
        if x < 9223372036854775808.0 {
            let z = std::num::truncating_f64_to_i64(x);
            if range::near_vertex(z) {
                return float_of(z) == x;
            }
        }
    }
    false
}

// Which number of microdegrees x is, where it is known to be one or a zero: the machine's own cast, which is defined for whole numbers other than -0.
pub(crate) fn known_value(x: f64) -> i64
    requires { readable x ≡ true }
    ensures { result ≡ value_of x }
{
    if x == 0.0 {
        return 0;
    }
    x as i64
}

// Writes a whole number at a place. A function of its own, so that callers speak of ℤ and never of bits.
fn put(room: &mut [i64], at: usize, z: i64)
    requires { RoomFor room.old at 1 }
    ensures { room.new ≡ slice_set room.old at z }
{
    room[at] = z;
}

// Writes x and y of vertex i, in whole microdegrees, from place `at` on.
fn put_vertex(outline: &[f64], i: usize, room: &mut [i64], at: usize)
    requires { WholesFit outline.now i room.old at }
    ensures { room.new ≡ sets room.old at (whole_vertex outline.now i) }
{
    let v = read::vertex_at(outline, i);
    put(room, at, known_value(v.x));
    put(room, at + 1, known_value(v.y));
}

// The outline in whole microdegrees, x and y in turn.
pub fn write_wholes(outline: &[f64], vc: usize, room: &mut [i64])
    requires { WholesRoom outline.now vc room.old }
    ensures { room.new ≡ room_of (pos 0) 2 vc (wholes_of outline.now vc) room.old }
{
    for i in 0..vc {
        put_vertex(outline, i, room, 2 * i);
    }
}
