#![tactic(auto, unfolding(crate::specs::Ready::step_of, stitch_run::specs::Stitch::how_of))]
// A round: the candidates of the chain's last vertex, the selector's answer, and the outcome.
ghost use Rattle.std.specs.Prelude.{◌≡◌, ◌-◌};
ghost use Rattle.outline.specs.Points.{pos_of};
ghost use Rattle.outline.specs.Outline.{vertex_at};
ghost use Rattle.stitch_answer.specs.Answer.{Answered};
ghost use Rattle.stitch_round.specs.Ready.{step_of, comes_to, RoundFit, Rounded};

use crate::scan;
use outline::point::Point;
use outline::read;
use stitch_answer::answer;
use stitch_answer::answer::{Answer, Round};
use stitch_tally::tally::{CLOSED, NO_CANDIDATE, NO_SELECTION, TOO_SMALL};

// The outcome of a round: another slice is joined, or the chain ends. No Result: a closed chain is no error, and both carry a number.
#[derive(Clone, Copy)]
pub enum Step {
    Onto(usize),
    Ends(usize),
}

// A slice was chosen: the first one closes the chain of n vertices, any other is joined.
fn taken(n: usize, first: usize, j: usize) -> Step
    ensures { result ≡ step_of n first j }
{
    if j != first {
        Step::Onto(j)
    } else if n < 3 {
        Step::Ends(TOO_SMALL)
    } else {
        Step::Ends(CLOSED)
    }
}

// No candidate, or no slice selected, discards the chain.
fn step_of(n: usize, first: usize, answer: Answer) -> Step
    ensures { result ≡ comes_to n first answer }
{
    let Some(selected) = answer else {
        return Step::Ends(NO_CANDIDATE);
    };
    let Some(j) = selected else {
        return Step::Ends(NO_SELECTION);
    };
    taken(n, first, j)
}

// What the selector answers for the last vertex of a chain of n vertices: by lists of cells, or by a scan where the slices are on no lists.
fn look(round: &Round, link: &mut [usize], room: &[f64], n: usize) -> Answer
    requires { RoundFit round.now.points.now round.now.visited.now link.old round.now.layout room.now n round.now.first round.now.plan }
    ensures { Answered round.now.points.now round.now.visited.now link.new round.now.layout round.now.first round.now.current (pos_of (vertex_at room.now (n - 1))) round.now.plan result }
{
    let last = read::vertex_at(room, n - 1);
    let end = Point::from(last);
    if round.layout.lists == 0 {
        scan::answer_of(round, end)
    } else {
        answer::answer_of(round, link, end)
    }
}

// The outcome of the round, for a chain of n vertices.
pub fn next_of(round: &Round, link: &mut [usize], room: &[f64], n: usize) -> Step
    requires { RoundFit round.now.points.now round.now.visited.now link.old round.now.layout room.now n round.now.first round.now.plan }
    ensures { Rounded round.now.points.now round.now.visited.now link.new round.now.layout room.now n round.now.first round.now.current round.now.plan result }
{
    let answer = look(round, link, room, n);
    step_of(n, round.first, answer)
}
