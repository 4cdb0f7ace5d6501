#![tactic(auto, unfolding(basis::specs::Refuse::first_of, crate::specs::AreaEntry::area_refusal))]
// The area pass by a limit: its refusals and its answer.
ghost use Rattle.std.specs.Prelude.{◌≡◌};
ghost use Rattle.basis.specs.All.{all_of};
ghost use Rattle.basis.specs.Number.{finite};
ghost use Rattle.basis.specs.Refusals.{found};
ghost use Rattle.area_entries.specs.AreaEntry.{area_refusal, AreaLeft};

use basis::answer::CountAnswer;
use basis::refuse::Refusal;
use basis::sizes::MOST_SLICES;
use basis::{answer, number, refuse};

// Every area is finite.
fn all_finite(areas: &[f64]) -> bool
    ensures { result ≡ all_of finite areas.now }
{
    let mut ok = true;
    for area in areas {
        ok = ok & number::is_finite(*area);
    }
    ok
}

// The rows in their order.
fn refusal(areas: &[f64], loops: usize, limit: f64, kept: usize) -> Result<(), Refusal>
    ensures { found result ≡ area_refusal areas.now loops limit kept }
{
    refuse::when(refuse::bad_length(areas.len(), 1, loops), Refusal::Length)?;
    refuse::when(MOST_SLICES < loops, Refusal::Length)?;
    refuse::when(!number::good_limit(limit), Refusal::Tolerance)?;
    refuse::when(!all_finite(areas), Refusal::Number)?;
    refuse::when(kept < loops, Refusal::Room)
}

// The numbers of the loops whose area, without its sign, is not below the limit, in order.
#[tactic(auto, unfolding(basis::specs::Refuse::answer))]
pub fn entry(areas: &[f64], loops: usize, limit: f64, kept: &mut [usize]) -> CountAnswer
    ensures { AreaLeft areas.now loops limit kept.old result kept.new }
{
    match refusal(areas, loops, limit, kept.len()) {
        Err(refusal) => answer::count_refused(refusal.number()),
        Ok(()) => answer::counted_as(area::write_kept(areas, limit, kept)),
    }
}
