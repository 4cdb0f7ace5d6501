// What the selector answers for an end, by three looks: the outline that the table prefers, the other, and overlaps.
ghost use Rattle.std.specs.Prelude.{◌≡◌};
ghost use Rattle.stitch_answer.specs.Answer.{group_first, refused_of, grouped, Ready, Grouped, Asking, Answered};

use outline::point::Point;
use select::best::NO_NUMBER;
use select::class;
use select::class::{Class, Starts};
use stitch_layout::layout::{Layout, Query};
use stitch_links::look;
use stitch_links::look::Look;
use stitch_run::plan::Plan;

// What the selector answers, a slice or none, where it is asked: where there is a candidate.
pub type Answer = Option<Option<usize>>;

// What a round reads: start points and marks, how the slices lie on lists, the chain's first slice and the one that was joined last, and the plan.
#[derive(Clone, Copy)]
pub struct Round<'a> {
    pub points: &'a [f64],
    pub visited: &'a [bool],
    pub layout: Layout,
    pub first: usize,
    pub current: usize,
    pub plan: Plan,
}

// After outline 1 or an overlap of it, outline 2 is looked for first.
fn group_first(class: Class) -> usize
    ensures { result ≡ group_first class }
{
    match class {
        Class::OfOne | Class::OverlapOfOne => 1,
        Class::OfTwo | Class::OverlapOfTwo => 0,
    }
}

// NotXor selects no overlap after an overlap.
fn is_refused(selector: u32, class: Class) -> bool
    ensures { result ≡ refused_of selector class }
{
    selector == 1 && matches!(class, Class::OverlapOfOne | Class::OverlapOfTwo)
}

fn of_group(q: Query, group: usize) -> Query
    ensures { result ≡ grouped q group }
{
    Query { group, ..q }
}

// The candidates of a box, and among them the selector's answer. The query's own group is not looked at.
fn by_groups(
    look: &Look,
    link: &mut [usize],
    selector: u32,
    starts: Starts,
    current: usize,
) -> Answer
    requires { Ready look.now.points.now look.now.visited.now look.now.layout look.now.query link.old selector starts }
    ensures { Grouped look.now.points.now look.now.visited.now look.now.layout look.now.query selector starts current link.new result }
{
    let q = look.query;
    let c = look::cells_of(look.layout, q);
    let class = class::class_of(starts, current);
    let g = group_first(class);
    let a = look::lowest(
        &Look {
            query: of_group(q, g),
            ..*look
        },
        link,
        c,
    );
    if a != NO_NUMBER {
        return Some(Some(a));
    }
    let b = look::lowest(
        &Look {
            query: of_group(q, 1 - g),
            ..*look
        },
        link,
        c,
    );
    if b != NO_NUMBER {
        return Some(Some(b));
    }
    let o = look::lowest(
        &Look {
            query: of_group(q, 2),
            ..*look
        },
        link,
        c,
    );
    if o == NO_NUMBER {
        return None;
    }
    if is_refused(selector, class) {
        return Some(None);
    }
    Some(Some(o))
}

// The candidates of an end, and the selector's answer after the slice that was joined last.
pub fn answer_of(round: &Round, link: &mut [usize], end: Point) -> Answer
    requires { Asking round.now.points.now round.now.visited.now link.old round.now.layout round.now.first round.now.plan }
    ensures { Answered round.now.points.now round.now.visited.now link.new round.now.layout round.now.first round.now.current end round.now.plan result }
{
    let p = round.plan;
    let look = Look {
        points: round.points,
        visited: round.visited,
        layout: round.layout,
        query: look::around(end, p.tolerance, 0, round.first),
    };
    by_groups(&look, link, p.selector, p.starts, round.current)
}
