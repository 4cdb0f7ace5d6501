// The cell of a coordinate: a whole number that does not fall where the coordinate rises.
ghost use Rattle.std.specs.Prelude.{◌≡◌};
ghost use Rattle.stitch_cell.specs.Cell.{kept_off, cell_of, Steady};

// How far an axis is moved, and the least that a moved coordinate may be. Any numbers above 0, `far` finite: they decide how fast a search is, never its answer.
#[derive(Clone, Copy)]
pub struct Plane {
    pub far: f64,
    pub near: f64,
}

// z, or `near` where z is below it or is a NaN. Not f64::max: which of two equal numbers it gives is open, and their bits are asked for.
#[tactic(auto, unfolding(crate::specs::Cell::kept_off))]
fn kept_off(near: f64, z: f64) -> f64
    ensures { result ≡ kept_off near z }
{
    if near <= z { z } else { near }
}

pub fn cell(plane: Plane, p: f64) -> usize
    requires { Steady plane }
    ensures { result ≡ cell_of plane p }
{
    f64::to_bits(kept_off(plane.near, p + plane.far)) as usize
}

// The farthest that an axis is moved: 2^62.
const FARTHEST: f64 = 4611686018427387904.0;

// The axis moved by `far`, where that and its half are above 0 and it is at most 2^62; else by 2.
#[tactic(auto, using(crate::specs::CellLaws::planes))]
pub fn moved(far: f64) -> Plane
    ensures { Steady result }
{
    let near = 0.5 * far;
    if 0.0 < near && 0.0 < far && far <= FARTHEST {
        Plane { far, near }
    } else {
        Plane {
            far: 2.0,
            near: 1.0,
        }
    }
}
