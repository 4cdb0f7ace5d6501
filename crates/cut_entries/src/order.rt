#![tactic(auto, unfolding(basis::specs::Refuse::first_from, basis::specs::Refuse::or_else, crate::specs::CutOrder::cut_input_rows, crate::specs::CutRows::list_rows, crate::specs::CutRows::value_rows, crate::specs::CutRows::index_rows))]
// The entry over the order of the cuts.
ghost use Rattle.std.specs.Prelude.{◌≡◌, ◌≤◌};
ghost use Rattle.basis.specs.Number.{tolerance_of};
ghost use Rattle.basis.specs.Refuse.{first_from};
ghost use Rattle.basis.specs.Refusals.{found};
ghost use Rattle.cut.specs.Cuts.{held, given, case_of};
ghost use Rattle.cut.specs.Order.{Roomy, Written};
ghost use Rattle.cut_entries.specs.CutRows.{FewCuts};
ghost use Rattle.cut_entries.specs.CutOrder.{cut_input_rows, order_room_rows, cut_order_refusal, CutOrdered, Wrote, Few};

use crate::faults;
use basis::answer::CountAnswer;
use basis::number::Tolerance;
use basis::refuse::Refusal;
use basis::sizes::MOST_CANDIDATES;
use basis::{answer, refuse};
use cut::arrival::{Case, Cuts};
use cut_order::write;

// Numbers 1 to 7.
fn input_refusal(cuts: &Cuts) -> Result<(), Refusal>
    ensures { found result ≡ first_from 0 (cut_input_rows (held cuts.now)) }
{
    faults::list_refusal(cuts)?;
    faults::value_refusal(cuts)?;
    faults::index_refusal(cuts)
}

// Number 9, for so many cuts.
fn room_refusal(count: usize, numbers: usize, points: usize) -> Result<(), Refusal>
    requires { FewCuts count }
    ensures { found result ≡ first_from 0 (order_room_rows count numbers points) }
{
    refuse::when(numbers < 3 * count, Refusal::Room)?;
    refuse::when(points < 2 * count, Refusal::Room)
}

// All numbers. The cuts are counted only where 1 to 7 found nothing: then there are few.
fn refusal(cuts: &Cuts, numbers: usize, points: usize) -> Result<(), Refusal>
    ensures { found result ≡ cut_order_refusal (held cuts.now) numbers points }
{
    input_refusal(cuts)?;
    room_refusal(cuts.case.count(), numbers, points)
}

// The cuts of an accepted call, put in order by a list for N of them: for few it costs little to set up.
#[tactic(auto)]
fn order_with<const N: usize>(cuts: &Cuts, cut_at: &mut [usize], cut: &mut [f64])
    requires room { Few N (held cuts.now) cut_at.old cut.old }
    requires most { N ≤ MOST_CANDIDATES }
    ensures { Written (held cuts.now) cut_at.old cut.old cut_at.new cut.new }
{
    let mut order = [0usize; N];
    write::write_order(cuts, &mut order, cut_at, cut);
}

// The cuts of an accepted call, and how many there are.
#[tactic(auto)]
fn order_cuts(cuts: &Cuts, cut_at: &mut [usize], cut: &mut [f64]) -> usize
    requires { Roomy (held cuts.now) cut_at.old cut.old }
    ensures { Wrote (held cuts.now) cut_at.old cut.old result cut_at.new cut.new }
{
    let count = cuts.case.count();
    if count <= 16 {
        order_with::<16>(cuts, cut_at, cut);
    } else if count <= 64 {
        order_with::<64>(cuts, cut_at, cut);
    } else if count <= 256 {
        order_with::<256>(cuts, cut_at, cut);
    } else {
        order_with::<MOST_CANDIDATES>(cuts, cut_at, cut);
    }
    count
}

// The answer, refused or not.
#[tactic(auto)]
fn ordered(cuts: &Cuts, cut_at: &mut [usize], cut: &mut [f64]) -> CountAnswer
    ensures { CutOrdered (held cuts.now) cut_at.old cut.old result cut_at.new cut.new }
{
    match refusal(cuts, cut_at.len(), cut.len()) {
        Err(refusal) => answer::count_refused(refusal.number()),
        Ok(()) => answer::counted_as(order_cuts(cuts, cut_at, cut)),
    }
}

// The cuts of the outline that the source names, in their order: segment, overlap mark, number of arrival and point of each.
#[tactic(auto)]
pub fn entry(
    outline: &[f64],
    vc: usize,
    source: u32,
    hit_at: &[usize],
    hit: &[f64],
    hits: usize,
    lap_at: &[usize],
    lap: &[f64],
    laps: usize,
    tolerance_x: f64,
    tolerance_y: f64,
    cut_at: &mut [usize],
    cut: &mut [f64],
) -> CountAnswer
    ensures { CutOrdered (given outline.now hit_at.now hit.now lap_at.now lap.now (case_of vc source hits laps (tolerance_of tolerance_x tolerance_y))) cut_at.old cut.old result cut_at.new cut.new }
{
    let tolerance = Tolerance {
        x: tolerance_x,
        y: tolerance_y,
    };
    let case = Case {
        vc,
        source: source as usize,
        hits,
        laps,
        tolerance,
    };
    let cuts = Cuts {
        outline,
        hit_at,
        hit,
        lap_at,
        lap,
        case,
    };
    ordered(&cuts, cut_at, cut)
}
