// Sums round one outline.
ghost use Rattle.std.specs.Prelude.{◌≡◌, ◌<◌, pos, ◌-ℤ◌};
ghost use Rattle.whole.specs.Two.{value};
ghost use Rattle.straight.specs.Plane.{spots, winding, area};
ghost use Rattle.straight.specs.Ready.{Outline, Probed, Few, next};
ghost use Rattle.straight.specs.Words.{area_words};

use crate::edge;
use outline::read;
use whole::two::Two;
use whole::{signed, two};

// The number of the vertex after i, of n.
fn after(i: usize, n: usize) -> usize
    requires { i < n }
    ensures { result ≡ next i n }
{
    read::wrapped(i + 1, n)
}

// up - down.
fn balance(up: u64, down: u64) -> i64
    requires { Few up down }
    ensures { result ≡ pos up -ℤ pos down }
{
    signed::minus(signed::signed(up), signed::signed(down))
}

// The winding number of the outline round (x, y), a probe in doubled coordinates.
pub fn winding_of(l: &[i64], n: usize, x: i64, y: i64) -> i64
    requires { Probed l.now n x y }
    ensures { result ≡ winding (spots l.now) (record { x = x; y = y }) }
{
    let mut up: u64 = 0;
    let mut down: u64 = 0;
    for i in 0..n {
        let j = after(i, n);
        up += u64::from(edge::rises_at(l, i, j, x, y));
        down += u64::from(edge::rises_at(l, j, i, x, y));
    }
    balance(up, down)
}

// A doubled area: its sign, and its size.
#[derive(Clone, Copy)]
pub struct Area {
    pub negative: bool,
    pub size: Two,
}

// up - down.
#[tactic(auto, using(crate::specs::WordsLaws::differences))]
fn apart(up: Two, down: Two) -> Area
    ensures { result ≡ area_words (pos (value up) -ℤ pos (value down)) }
{
    if two::less(up, down) {
        Area {
            negative: true,
            size: two::take(down, up),
        }
    } else {
        Area {
            negative: false,
            size: two::take(up, down),
        }
    }
}

// The doubled signed area of the outline. Both sums may pass 64 bits.
pub fn area_of(l: &[i64], n: usize) -> Area
    requires { Outline l.now n }
    ensures { result ≡ area_words (area (spots l.now)) }
{
    let mut up = Two::from(0);
    let mut down = Two::from(0);
    for i in 0..n {
        let j = after(i, n);
        up = two::add(up, Two::from(edge::gain_at(l, i, j)));
        down = two::add(down, Two::from(edge::gain_at(l, j, i)));
    }
    apart(up, down)
}
