// A report that is made one outline at a time, for a caller that has no room for all of them at once.
ghost use Rattle.std.specs.Prelude.{◌≡◌, [], ◌∷◌};
ghost use Rattle.straight_entries.specs.ReportEntry.{report_answer};
ghost use Rattle.straight_entries.specs.Running.{Reported, Both, Fewer, Joined, lowest, summed};

use crate::answer::ReportAnswer;
use crate::report::MOST_LOOPS;
use crate::{answer, report};
use basis::refuse::Refusal;
use whole::two;
use whole::two::Two;

// The lower of two refusals, where 0 is none. They stay numbers: the two answers are those of the C interface.
#[tactic(auto, using(basis::specs::Choice::cases), unfolding(crate::specs::Running::lowest))]
fn lowest_of(n: u32, m: u32) -> u32
    ensures { result ≡ lowest n m }
{
    if n == 0 {
        m
    } else if m == 0 {
        n
    } else {
        n.min(m)
    }
}

fn total_of(a: ReportAnswer) -> Two
    ensures { result ≡ record { high = a.high; low = a.low } }
{
    Two {
        high: a.high,
        low: a.low,
    }
}

// Both reports as one.
fn sum_of(a: ReportAnswer, b: ReportAnswer) -> ReportAnswer
    requires { Fewer a b }
    ensures { result ≡ summed a b }
{
    let t = two::add(total_of(a), total_of(b));
    ReportAnswer {
        refusal: 0,
        count: a.count + b.count,
        zero: a.zero + b.zero,
        high: t.high,
        low: t.low,
    }
}

// The report on the outlines of two reports.
fn join(a: ReportAnswer, b: ReportAnswer) -> ReportAnswer
    requires { Both a b }
    ensures { Joined a b result }
{
    let number = lowest_of(a.refusal, b.refusal);
    if number != 0 {
        return answer::report_refused(number);
    }
    if MOST_LOOPS < a.count + b.count {
        return answer::report_refused(Refusal::Loops.number());
    }
    sum_of(a, b)
}

// The report on no outline.
pub fn none() -> ReportAnswer
    ensures { Reported result }
{
    answer::report_refused(0)
}

// The report on the outlines of `so_far` and on one outline more.
pub fn next(so_far: ReportAnswer, outline: &[i64], vc: usize) -> ReportAnswer
    requires { Reported so_far }
    ensures { Joined so_far (report_answer outline.now (vc ∷ []) 1) result }
{
    let ends = [vc];
    join(so_far, report::entry(outline, &ends, 1))
}
