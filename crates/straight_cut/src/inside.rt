// The inside answer: the winding number of the other outline round the doubled midpoint of a candidate's two vertices.
ghost use Rattle.std.specs.Prelude.{◌≡◌, ◌+ℤ◌};
ghost use Rattle.straight_cut.specs.Microdegrees.{value_of};
ghost use Rattle.straight_cut.specs.Inside.{inside_code, inside_of, KnownTwo, InsideFit};

use crate::microdegrees;
use outline::point::Vertex;
use straight::sum;

// 1 for a winding number other than 0. A number and no bool: it is compared with `Part.keep`, which has the code of C's list.
fn code_of(w: i64) -> u8
    ensures { result ≡ inside_code w }
{
    u8::from(w != 0)
}

// The midpoint of two numbers of microdegrees, doubled: their sum.
fn doubled_mid(a: f64, b: f64) -> i64
    requires { KnownTwo a b }
    ensures { result ≡ value_of a +ℤ value_of b }
{
    microdegrees::known_value(a) + microdegrees::known_value(b)
}

// Whether the midpoint of the two vertices is inside the outline: 1 or 0.
pub fn inside_of(other: &[i64], vc: usize, a: Vertex, b: Vertex) -> u8
    requires { InsideFit other.now vc a b }
    ensures { result ≡ inside_of other.now a b }
{
    let x = doubled_mid(a.x, b.x);
    let y = doubled_mid(a.y, b.y);
    code_of(sum::winding_of(other, vc, x, y))
}
