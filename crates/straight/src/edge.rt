// One edge of an outline: which side a probe is on, and what it adds to the area.
ghost use Rattle.std.specs.Prelude.{◌≡◌, pos, ◌-ℤ◌, ◌*ℤ◌, get_or};
ghost use Rattle.straight.specs.Plane.{left, spans, cross, twice};
ghost use Rattle.straight.specs.Ready.{Four, Six, Held, Edge, Seen, spot_at, rises, gain};

use whole::signed;

// a b - c d, of numbers whose products fit.
fn gap(a: i64, b: i64, c: i64, d: i64) -> i64
    requires { Four a b c d }
    ensures { result ≡ a *ℤ b -ℤ c *ℤ d }
{
    a * b - c * d
}

// Above 0 where (x, y) is strictly left of the line from (ax, ay) through (bx, by).
fn side_of(ax: i64, ay: i64, bx: i64, by: i64, x: i64, y: i64) -> i64
    requires { Six ax ay bx by x y }
    ensures { result ≡ (bx -ℤ ax) *ℤ (y -ℤ ay) -ℤ (x -ℤ ax) *ℤ (by -ℤ ay) }
{
    gap(bx - ax, y - ay, x - ax, by - ay)
}

// Twice the number at k.
fn doubled(l: &[i64], k: usize) -> i64
    requires { Held l.now k }
    ensures { result ≡ pos 2 *ℤ get_or l.now k (pos 0) }
{
    2 * l[k]
}

// Whether the edge from vertex i to vertex j rises past y: y1 ≤ y < y2, all doubled.
fn spans_at(l: &[i64], i: usize, j: usize, x: i64, y: i64) -> bool
    requires { Seen l.now i j x y }
    ensures { result ≡ spans (twice (spot_at l.now i)) (twice (spot_at l.now j)) (record { x = x; y = y }) }
{
    doubled(l, 2 * i + 1) <= y && y < doubled(l, 2 * j + 1)
}

// Whether (x, y) is strictly left of it.
fn left_at(l: &[i64], i: usize, j: usize, x: i64, y: i64) -> bool
    requires { Seen l.now i j x y }
    ensures { result ≡ left (twice (spot_at l.now i)) (twice (spot_at l.now j)) (record { x = x; y = y }) }
{
    let ax = doubled(l, 2 * i);
    let ay = doubled(l, 2 * i + 1);
    let bx = doubled(l, 2 * j);
    let by = doubled(l, 2 * j + 1);
    0 < side_of(ax, ay, bx, by, x, y)
}

// Whether it rises past y with (x, y) strictly left of it.
pub(crate) fn rises_at(l: &[i64], i: usize, j: usize, x: i64, y: i64) -> bool
    requires { Seen l.now i j x y }
    ensures { result ≡ rises (record { x = x; y = y }) (twice (spot_at l.now i)) (twice (spot_at l.now j)) }
{
    spans_at(l, i, j, x, y) && left_at(l, i, j, x, y)
}

// What the edge from vertex i to vertex j adds to the doubled area.
fn cross_at(l: &[i64], i: usize, j: usize) -> i64
    requires { Edge l.now i j }
    ensures { result ≡ cross (spot_at l.now i) (spot_at l.now j) }
{
    gap(l[2 * i], l[2 * j + 1], l[2 * j], l[2 * i + 1])
}

// The same, and 0 where it is negative.
pub(crate) fn gain_at(l: &[i64], i: usize, j: usize) -> u64
    requires { Edge l.now i j }
    ensures { result ≡ gain (spot_at l.now i) (spot_at l.now j) }
{
    let z = cross_at(l, i, j);
    if 0 < z { signed::unsigned(z) } else { 0 }
}
