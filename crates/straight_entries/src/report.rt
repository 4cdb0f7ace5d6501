#![tactic(auto, unfolding(basis::specs::Refuse::first_of, crate::specs::ReportEntry::report_refusal))]
// The entry `mask_straight_report`.
ghost use Rattle.std.specs.Prelude.{◌≡◌, ◌-◌};
ghost use Rattle.basis.specs.Refusals.{found};
ghost use Rattle.straight_report.specs.Report.{last_of, sizes_fault};
ghost use Rattle.straight_entries.specs.ReportEntry.{report_refusal, report_answer};

use crate::answer::ReportAnswer;
use crate::{answer, range};
use basis::refuse;
use basis::refuse::Refusal;

// The most outlines of a report.
pub const MOST_LOOPS: usize = 4096;

// Where the last outline ends.
#[tactic(auto, using(straight_report::specs::ReportLaws::sizing))]
fn last_end(ends: &[usize]) -> usize
    ensures { result ≡ last_of 0 ends.now }
{
    ends.last().copied().unwrap_or(0)
}

// Number 2: some outline is too short or too long.
#[tactic(auto, using(straight_report::specs::ReportLaws::sizing))]
fn bad_sizes(ends: &[usize]) -> bool
    ensures { result ≡ sizes_fault 0 ends.now }
{
    let mut from: usize = 0;
    for end in ends {
        if refuse::bad_size(end.saturating_sub(from)) {
            return true;
        }
        from = *end;
    }
    false
}

fn refusal(points: &[i64], ends: &[usize], loops: usize) -> Result<(), Refusal>
    ensures { found result ≡ report_refusal points.now ends.now loops }
{
    refuse::when(ends.len() != loops, Refusal::Length)?;
    refuse::when(
        refuse::bad_length(points.len(), 2, last_end(ends)),
        Refusal::Length,
    )?;
    refuse::when(bad_sizes(ends), Refusal::Outline)?;
    refuse::when(!range::all_near(points), Refusal::Range)?;
    refuse::when(MOST_LOOPS < loops, Refusal::Loops)
}

// The report on `loops` outlines: their vertices one outline after the other, and for each how many vertices all up to and with it have.
pub fn entry(points: &[i64], ends: &[usize], loops: usize) -> ReportAnswer
    ensures { result ≡ report_answer points.now ends.now loops }
{
    match refusal(points, ends, loops) {
        Err(refusal) => answer::report_refused(refusal.number()),
        Ok(()) => answer::report_found(loops, straight_report::report_of(points, ends)),
    }
}
