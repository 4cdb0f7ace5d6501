// The slices: their start points, their vertices in a chain.
ghost use Rattle.std.specs.Prelude.{◌≡◌};
ghost use Rattle.stitch_run.specs.Stitch.{given_of, start_point_of};
ghost use Rattle.stitch_slices.specs.Ready.{SliceFit, SliceMore, SliceAdded, PointsFit, Points};

use outline::point::Point;
use outline::write;
use slice::read;
use stitch_run::plan::Slices;
use stitch_vertices::grow;
use view::vertex;

// The start point of slice number i.
fn start_point(s: &Slices, i: usize) -> Point
    requires { SliceFit (given_of s.now) i }
    ensures { result ≡ start_point_of (given_of s.now) i }
{
    let v = read::view_at(s.slice_at, s.slice, i);
    if read::codes_at(s.slice_at, i).source == 1 {
        return Point::from(vertex::vertex_of(s.outline1, s.plan.vc1, v, 0));
    }
    Point::from(vertex::vertex_of(s.outline2, s.plan.vc2, v, 0))
}

// Adds the vertices of slice number i to a chain of n vertices. Says how many it has now.
pub fn add_slice(room: &mut [f64], n: usize, s: &Slices, i: usize) -> usize
    requires { SliceMore (given_of s.now) i room.old n }
    ensures { SliceAdded (given_of s.now) i n room.old result room.new }
{
    let p = s.plan;
    let v = read::view_at(s.slice_at, s.slice, i);
    if read::codes_at(s.slice_at, i).source == 1 {
        return grow::extend_remove_repeat(room, n, s.outline1, p.vc1, v, p.tolerance);
    }
    grow::extend_remove_repeat(room, n, s.outline2, p.vc2, v, p.tolerance)
}

// Writes each slice's start point, x and y.
pub fn fill_points(points: &mut [f64], s: &Slices)
    requires { PointsFit (given_of s.now) points.old }
    ensures { Points (given_of s.now) points.new }
{
    for i in 0..s.plan.slices {
        write::put_point(points, 2 * i, start_point(s, i));
    }
}
