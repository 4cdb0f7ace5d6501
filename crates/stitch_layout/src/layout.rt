#![tactic(auto, unfolding(crate::specs::Slices::group_of, crate::specs::Slices::list_of, crate::specs::Slices::home_of))]
// Slices whose start points lie in one cell, of one group, are on one list, in ascending number. Several cells may share a list.
ghost use Rattle.std.specs.Prelude.{◌≡◌, true};
ghost use Rattle.stitch_layout.specs.Slices.{group_of, list_of, home_of, meets_of, same_start, Alike};
ghost use Rattle.stitch_layout.specs.Links.{Run, Linked, ever_free};
ghost use Rattle.stitch_layout.specs.Ready.{Masked, Home, Both, Before, Passed, Empty};

use stitch_cell::cell;
use stitch_cell::cell::Plane;

// How slices are put on lists: how many there are, how many lists, how far each axis is moved, and where outline 2's slices and the overlaps begin.
#[derive(Clone, Copy)]
pub struct Layout {
    pub count: usize,
    pub lists: usize,
    pub x: Plane,
    pub y: Plane,
    pub two: usize,
    pub over: usize,
}

// What is looked for: starts in a box, slices of a group, unvisited or the chain's first.
#[derive(Clone, Copy)]
pub struct Query {
    pub left: f64,
    pub right: f64,
    pub bottom: f64,
    pub top: f64,
    pub group: usize,
    pub first: usize,
}

// 0: outline 1; 1: outline 2; 2: overlaps of either. No enum: a list's number is computed from it, and the other outline is 1 less it.
pub fn group_of(w: Layout, j: usize) -> usize
    ensures { result ≡ group_of w j }
{
    if j < w.two {
        0
    } else if j < w.over {
        1
    } else {
        2
    }
}

// The list of a cell and a group: any number below `lists` would do.
pub fn list_of(lists: usize, cx: usize, cy: usize, g: usize) -> usize
    requires { Masked lists }
    ensures { result ≡ list_of lists cx cy g }
{
    let x = cx % 4294967296 * 1327217885;
    let y = cy % 4294967296 * 1737350767;
    ((x + y + g % 4 * 699050000) / 1048576) & (lists - 1)
}

// The list of slice j.
fn home_of(points: &[f64], w: Layout, j: usize) -> usize
    requires { Home points.now w j }
    ensures { result ≡ home_of points.now w j }
{
    let cx = cell::cell(w.x, points[2 * j]);
    let cy = cell::cell(w.y, points[2 * j + 1]);
    list_of(w.lists, cx, cy, group_of(w, j))
}

// Slices i and j begin at one point.
fn same_start(points: &[f64], i: usize, j: usize) -> bool
    requires { Both points.now i j }
    ensures { result ≡ same_start points.now i j }
{
    (points[2 * i] == points[2 * j]) & (points[2 * i + 1] == points[2 * j + 1])
}

// They are of one group too, so that a look finds both or neither.
fn alike(points: &[f64], w: Layout, i: usize, j: usize) -> bool
    requires { Both points.now i j }
    ensures { result ≡ true → Alike points.now w i j }
{
    same_start(points, i, j) && group_of(w, i) == group_of(w, j)
}

// Slices of a list that follow one another and are alike make a run. The last of slice i's run, which is to stand before `next`.
#[tactic(auto, using(crate::proofs::AlikeLaws::run_ends))]
fn last_of_run(points: &[f64], link: &[usize], w: Layout, i: usize, next: usize) -> usize
    requires { Before points.now w link.now i next }
    ensures { Run (home_of points.now w) (meets_of points.now w) w.lists w.count i result }
{
    if next < w.lists + w.count && alike(points, w, next - w.lists, i) {
        link[next + w.count]
    } else {
        w.lists + i
    }
}

// A look that did not meet slice j goes on from here: the last of j's run. Where slice `seen`, the one that it did not meet before (0 at first), begins at another point, it goes on from j:
// then j's run is most often j alone, and is not looked up, since on a list of many points that would take twice as long.
pub fn passed_to(points: &[f64], link: &[usize], w: Layout, seen: usize, j: usize) -> usize
    requires { Passed points.now w link.now seen j }
    ensures { Run (home_of points.now w) (meets_of points.now w) w.lists w.count j result }
{
    let at = w.lists + j;
    if same_start(points, seen, j) {
        link[at + w.count]
    } else {
        at
    }
}

// Every slice is put on its list, from the last to the first, so lists ascend. Behind the links stands the last of each slice's run.
pub fn link_slices(points: &[f64], link: &mut [usize], w: Layout)
    requires { Empty points.now w link.old }
    ensures { Linked ever_free (home_of points.now w) (meets_of points.now w) w.lists w.count link.new }
{
    for i in (0..w.count).rev() {
        let h = home_of(points, w, i);
        let at = w.lists + i;
        let run = at + w.count;
        let next = link[h];
        let last = last_of_run(points, link, w, i, next);
        link[at] = next;
        link[h] = at;
        link[run] = last;
    }
}
