#![tactic(auto, unfolding(stitch_run::specs::Run::free, stitch_layout::specs::Slices::meets_of))]
// A look for the lowest free slice of a group in a box. It goes through the lists of the cells that the box meets, and takes off what is not free.
ghost use Rattle.std.specs.Prelude.{◌≡◌, ◌+◌};
ghost use Rattle.stitch_run.specs.Run.{free};
ghost use Rattle.stitch_layout.specs.Slices.{starts_in, meets_of};
ghost use Rattle.stitch_links.specs.Looks.{cells_of, query_of, LookedBy, ListOf, BlockOf};
ghost use Rattle.stitch_links.specs.Ready.{Marked, OnList, Row, Rows, Sides, Asked, Lowest};
ghost use Rattle.stitch_layout.specs.Ready.{There};

use basis::number::Tolerance;
use outline::point::Point;
use select::best::NO_NUMBER;
use stitch_cell::{cell, lower};
use stitch_layout::layout;
use stitch_layout::layout::{Layout, Query};

// The cells of a box's sides.
#[derive(Clone, Copy)]
pub struct Cells {
    pub x0: usize,
    pub x1: usize,
    pub y0: usize,
    pub y1: usize,
}

// What a look goes through: start points, marks, how the slices lie on lists, and what is looked for.
#[derive(Clone, Copy)]
pub struct Look<'a> {
    pub points: &'a [f64],
    pub visited: &'a [bool],
    pub layout: Layout,
    pub query: Query,
}

// Unvisited or the chain's first slice.
pub fn is_free(visited: &[bool], first: usize, j: usize) -> bool
    requires { Marked visited.now j }
    ensures { result ≡ free visited.now first j }
{
    !visited[j] || j == first
}

// Slice j starts in the closed box.
fn starts_in(points: &[f64], q: Query, j: usize) -> bool
    requires { There points.now j }
    ensures { result ≡ starts_in points.now q j }
{
    let x = points[2 * j];
    let y = points[2 * j + 1];
    (q.left <= x) & (x <= q.right) & (q.bottom <= y) & (y <= q.top)
}

// Slice j is of the group, and starts in the closed box. Most that do not meet fail the box, so the group is looked at last.
fn meets(look: &Look, j: usize) -> bool
    requires { There look.now.points.now j }
    ensures { result ≡ meets_of look.now.points.now look.now.layout look.now.query j }
{
    starts_in(look.points, look.query, j) && layout::group_of(look.layout, j) == look.query.group
}

// On one list: the lowest slice that is looked for. What is not free is taken off, and where a slice is not met its run is passed.
fn first_on(look: &Look, link: &mut [usize], h: usize) -> usize
    requires { OnList look.now.points.now look.now.visited.now look.now.layout look.now.query.first link.old h }
    ensures { LookedBy look.now (ListOf look.now h) link.new result }
{
    let lists = look.layout.lists;
    let end = lists + look.layout.count;
    let mut at = h;
    let mut next = link[at];
    let mut seen = 0;
    // No `for`: each link says where the next one stands, and links are changed on the way.
    while next < end {
        let j = next - lists;
        if !is_free(look.visited, look.query.first, j) {
            let past = link[next];
            link[at] = past;
            next = past;
            continue;
        }
        if meets(look, j) {
            return j;
        }
        at = layout::passed_to(look.points, link, look.layout, seen, j);
        next = link[at];
        seen = j;
    }
    NO_NUMBER
}

// In one column of cells, from line y0 to line y1.
fn row(look: &Look, link: &mut [usize], cx: usize, y0: usize, y1: usize) -> usize
    requires { Row look.now.points.now look.now.visited.now look.now.layout look.now.query.first link.old y1 }
    ensures { LookedBy look.now (BlockOf look.now cx (cx + 1) y0 (y1 + 1)) link.new result }
{
    let mut best = NO_NUMBER;
    for cy in y0..=y1 {
        let h = layout::list_of(look.layout.lists, cx, cy, look.query.group);
        let r = first_on(look, link, h);
        best = lower::lesser(best, r);
    }
    best
}

// In all cells from those of one corner to those of the other.
fn search(look: &Look, link: &mut [usize], c: Cells) -> usize
    requires { Rows look.now.points.now look.now.visited.now look.now.layout look.now.query.first link.old c }
    ensures { LookedBy look.now (BlockOf look.now c.x0 (c.x1 + 1) c.y0 (c.y1 + 1)) link.new result }
{
    let mut best = NO_NUMBER;
    for cx in c.x0..=c.x1 {
        let r = row(look, link, cx, c.y0, c.y1);
        best = lower::lesser(best, r);
    }
    best
}

// The closed box around an end, its sides rounded once, with a tolerance for each axis.
pub fn around(end: Point, t: Tolerance, group: usize, first: usize) -> Query
    ensures { result ≡ query_of end t group first }
{
    Query {
        left: end.x - t.x,
        right: end.x + t.x,
        bottom: end.y - t.y,
        top: end.y + t.y,
        group,
        first,
    }
}

pub fn cells_of(w: Layout, q: Query) -> Cells
    requires { Sides w }
    ensures { result ≡ cells_of w q }
{
    Cells {
        x0: cell::cell(w.x, q.left),
        x1: cell::cell(w.x, q.right),
        y0: cell::cell(w.y, q.bottom),
        y1: cell::cell(w.y, q.top),
    }
}

// The lowest slice of the group that is free and starts in the box, or NO_NUMBER. No Option: NO_NUMBER is above every slice, so the lowest of all finds is their least.
pub fn lowest(look: &Look, link: &mut [usize], c: Cells) -> usize
    requires { Asked look.now.points.now look.now.visited.now look.now.layout look.now.query link.old c }
    ensures { Lowest look.now.points.now look.now.visited.now look.now.layout look.now.query link.new result }
{
    search(look, link, c)
}
