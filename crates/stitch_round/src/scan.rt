// Document 01: "A round takes the candidates of the chain's last vertex that are unvisited or the chain's first slice, in ascending number".
ghost use Rattle.std.specs.Prelude.{◌≡◌, ◌*◌};
ghost use Rattle.outline.specs.Outline.{point_at};
ghost use Rattle.outline.specs.Points.{in_box};
ghost use Rattle.stitch_links.specs.Ready.{ScanFit};
ghost use Rattle.stitch_layout.specs.Ready.{There};
ghost use Rattle.stitch_answer.specs.Answer.{near_end, answer_at};
ghost use Rattle.stitch_round.specs.Ready.{BothThere, Scannable, Met};

use basis::number::Tolerance;
use outline::point::Point;
use outline::{point, read};
use select::best::Best;
use select::table::Choices;
use select::{best, class, table};
use stitch_answer::answer::{Answer, Round};
use stitch_links::look;

// A start point joins an end: it is in the closed box around it.
fn joins(start: Point, end: Point, t: Tolerance) -> bool
    ensures { result ≡ in_box t end start }
{
    point::in_box(start, end, t)
}

// The start point of slice j joins the end.
fn is_near(points: &[f64], end: Point, t: Tolerance, j: usize) -> bool
    requires { There points.now j }
    ensures { result ≡ in_box t end (point_at points.now (2 * j)) }
{
    joins(read::point_at(points, 2 * j), end, t)
}

// Slice j is a candidate.
fn is_candidate(round: &Round, end: Point, j: usize) -> bool
    requires { BothThere round.now.points.now round.now.visited.now j }
    ensures { result ≡ near_end round.now.points.now round.now.visited.now round.now.first end round.now.plan.tolerance j }
{
    look::is_free(round.visited, round.first, j)
        && is_near(round.points, end, round.plan.tolerance, j)
}

// Of each choice the first that suits among the candidates of an end, in ascending number; None where there is no candidate.
fn scan(round: &Round, end: Point, choices: Choices) -> Option<Best>
    requires { ScanFit round.now.points.now round.now.visited.now round.now.plan.slices }
    ensures { Met (near_end round.now.points.now round.now.visited.now round.now.first end round.now.plan.tolerance) round.now.plan.starts choices round.now.plan.slices result }
{
    let starts = round.plan.starts;
    let mut met = None;
    for j in 0..round.plan.slices {
        if is_candidate(round, end, j) {
            let best = met.unwrap_or(best::none_yet());
            met = Some(best::offer(best, choices, j, class::class_of(starts, j)));
        }
    }
    met
}

// What the selector answers among them, after the slice that was joined last.
pub(crate) fn answer_of(round: &Round, end: Point) -> Answer
    requires { Scannable round.now.points.now round.now.visited.now round.now.plan }
    ensures { result ≡ answer_at round.now.points.now round.now.visited.now round.now.first round.now.current end round.now.plan }
{
    let p = round.plan;
    let choices = table::choices_of(p.selector, p.starts, round.current);
    let met = scan(round, end, choices)?;
    Some(best::chosen(met))
}
