// The slices of a stitch, put on lists: their layout, and every slice on its list.
ghost use Rattle.stitch_links.specs.Hanging.{Laying, LaidBy, Hangable, Hanged};

use basis::number;
use basis::number::Tolerance;
use outline::point::Point;
use outline::read;
use stitch_cell::cell;
use stitch_layout::layout;
use stitch_layout::layout::Layout;
use stitch_run::plan::Plan;

// A number for each axis.
#[derive(Clone, Copy)]
struct Axes {
    x: f64,
    y: f64,
}

// Where the last digit of a number is one wide: 2^52.
const ONE_WIDE: f64 = 4503599627370496.0;

// How wide a cell is where no slices crowd, in tolerances: at most so wide, and more than half of it.
const WIDE: f64 = 18.0;

// At the narrowest. The narrower cells are, the more of them the box around an end meets.
const NARROW: f64 = 2.0;

// So near to the middle slice's start point that both may be in one cell.
fn is_near(s: Point, middle: Point, near: Tolerance) -> bool {
    number::in_span(s.x, middle.x, near.x) & number::in_span(s.y, middle.y, near.y)
}

// Summed up over points, it is above 0 where more than one of five is near the middle one, and is another.
fn share(s: Point, middle: Point, near: Tolerance) -> f64 {
    if is_near(s, middle, near) & ((s.x != middle.x) | (s.y != middle.y)) {
        4.0
    } else {
        -1.0
    }
}

// Slices crowd: many begin near the middle one's start point, at others. Every fifth is looked at, to be quick; where five points take turns, none of these begins where the middle one does.
fn is_crowded(points: &[f64], middle: Point, near: Tolerance) -> bool {
    let count = points.len() / 2;
    let mut crowd = 0.0;
    for i in ((count / 2 + 1) % 5..count).step_by(5) {
        crowd = crowd + share(read::point_at(points, 2 * i), middle, near);
    }
    0.0 < crowd
}

// Of the slices that crowd, two that follow one another and begin at different points are to be in different cells, by the axis on which they are farther apart.
// Then slices of a list mostly begin at one point, and make runs. Where points are too near for that, cells are narrow on both axes, and hold few points that an end does not reach.
fn narrow_of(points: &[f64], middle: Point, near: Tolerance, t: Tolerance) -> Axes {
    let mut x = WIDE;
    let mut y = WIDE;
    let mut last = middle;
    for i in 0..points.len() / 2 {
        let s = read::point_at(points, 2 * i);
        if is_near(s, middle, near) {
            let dx = number::magnitude(s.x - last.x) / t.x;
            let dy = number::magnitude(s.y - last.y) / t.y;
            if dx < dy {
                y = y.min(dy);
            } else if 0.0 < dx {
                x = x.min(dx);
            }
            last = s;
        }
    }
    if x.min(y) < NARROW {
        Axes {
            x: NARROW,
            y: NARROW,
        }
    } else {
        Axes { x, y }
    }
}

fn width_of(points: &[f64], t: Tolerance) -> Axes {
    let wide = Axes { x: WIDE, y: WIDE };
    let count = points.len() / 2;
    if count == 0 {
        return wide;
    }
    let middle = read::point_at(points, 2 * (count / 2));
    let near = Tolerance {
        x: WIDE * t.x,
        y: WIDE * t.y,
    };
    if !is_crowded(points, middle, near) {
        return wide;
    }
    narrow_of(points, middle, near, t)
}

// So far that the last digit of a moved coordinate is some tolerances wide, and that no moved start point is below the half. This is for speed alone: there is no promise.
fn far_of(points: &[f64], t: Tolerance) -> Axes {
    let w = width_of(points, t);
    let mut x = ONE_WIDE * w.x * t.x;
    let mut y = ONE_WIDE * w.y * t.y;
    for i in 0..points.len() / 2 {
        let s = read::point_at(points, 2 * i);
        x = x.max(4.0 * number::magnitude(s.x));
        y = y.max(4.0 * number::magnitude(s.y));
    }
    Axes { x, y }
}

fn layout_of(p: Plan, lists: usize, far: Axes) -> Layout
    requires { Laying lists }
    ensures { LaidBy result lists p.slices p.starts }
{
    let starts = p.starts;
    Layout {
        count: p.slices,
        lists,
        x: cell::moved(far.x),
        y: cell::moved(far.y),
        two: starts.pline2,
        over: starts.pline1_overlapping,
    }
}

// Puts the slices on so many lists, in links that hold none yet. With 0 lists no slice is put on one: then a scan looks for slices.
pub fn hang(points: &[f64], link: &mut [usize], p: Plan, lists: usize) -> Layout
    requires { Hangable points.now link.old p lists }
    ensures { Hanged points.now link.new p result }
{
    if lists == 0 {
        return layout_of(p, 0, Axes { x: 2.0, y: 2.0 });
    }
    let w = layout_of(p, lists, far_of(&points[..2 * p.slices], p.tolerance));
    layout::link_slices(points, link, w);
    w
}
