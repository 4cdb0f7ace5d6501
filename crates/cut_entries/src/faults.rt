#![tactic(auto, unfolding(basis::specs::Refuse::first_from, basis::specs::Refuse::or_else, crate::specs::CutRows::list_rows, crate::specs::CutRows::value_rows, crate::specs::CutRows::index_rows, crate::specs::CutRows::view_start_fault, crate::specs::CutRows::view_offset_fault))]
// The refusals that `mask_cut_order` and `mask_candidates` share, part by part of their table.
ghost use Rattle.std.specs.Prelude.{◌≡◌};
ghost use Rattle.basis.specs.Refuse.{first_from};
ghost use Rattle.basis.specs.Refusals.{found};
ghost use Rattle.cut.specs.Cuts.{held};
ghost use Rattle.cut_entries.specs.CutRows.{list_rows, code_rows, range_rows, value_rows, view_start_fault, view_offset_fault, lap_index_rows, index_rows};

use basis::refuse::Refusal;
use basis::sizes::{MOST_HITS, MOST_LAPS};
use basis::{items, number, refuse};
use cut::arrival;
use cut::arrival::{Case, Cuts};

// Number 1.
pub fn list_refusal(cuts: &Cuts) -> Result<(), Refusal>
    ensures { found result ≡ first_from 0 (list_rows (held cuts.now)) }
{
    let s = cuts.case;
    refuse::when(
        refuse::bad_length(cuts.outline.len(), 3, s.vc),
        Refusal::Length,
    )?;
    refuse::when(
        refuse::bad_length(cuts.hit_at.len(), 2, s.hits),
        Refusal::Length,
    )?;
    refuse::when(
        refuse::bad_length(cuts.hit.len(), 2, s.hits),
        Refusal::Length,
    )?;
    refuse::when(
        refuse::bad_length(cuts.lap_at.len(), 7, s.laps),
        Refusal::Length,
    )?;
    refuse::when(
        refuse::bad_length(cuts.lap.len(), 6, s.laps),
        Refusal::Length,
    )?;
    refuse::when(MOST_HITS < s.hits, Refusal::Length)?;
    refuse::when(MOST_LAPS < s.laps, Refusal::Length)
}

// Numbers 2 to 4.
fn code_refusal(case: Case, lap_at: &[usize]) -> Result<(), Refusal>
    ensures { found result ≡ first_from 0 (code_rows case.vc case.source case.tolerance lap_at.now) }
{
    refuse::when(refuse::bad_size(case.vc), Refusal::Outline)?;
    refuse::when(refuse::bad_source(case.source), Refusal::Code)?;
    refuse::when(!items::choices_known(lap_at, 7, 4), Refusal::Code)?;
    refuse::when(!number::in_tolerance(case.tolerance), Refusal::Tolerance)
}

// Number 5.
fn range_refusal(outline: &[f64], hit: &[f64], lap: &[f64]) -> Result<(), Refusal>
    ensures { found result ≡ first_from 0 (range_rows outline.now hit.now lap.now) }
{
    refuse::when(!number::all_in_range(outline), Refusal::Number)?;
    refuse::when(!number::all_in_range(hit), Refusal::Number)?;
    refuse::when(!number::all_in_range(lap), Refusal::Number)
}

// Numbers 2 to 5.
pub fn value_refusal(cuts: &Cuts) -> Result<(), Refusal>
    ensures { found result ≡ first_from 0 (value_rows (held cuts.now)) }
{
    code_refusal(cuts.case, cuts.lap_at)?;
    range_refusal(cuts.outline, cuts.hit, cuts.lap)
}

// Number 6: an overlap's own view, which is of outline 2, starts at an index that the outline has not.
fn bad_view_start(source: usize, vc: usize, lap_at: &[usize]) -> bool
    ensures { result ≡ view_start_fault source vc lap_at.now }
{
    source == 2 && !items::all_below(lap_at, 7, 5, vc)
}

// Number 7: its offset is above the outline's vertex count.
fn bad_view_offset(source: usize, vc: usize, lap_at: &[usize]) -> bool
    ensures { result ≡ view_offset_fault source vc lap_at.now }
{
    source == 2 && !items::all_at_most(lap_at, 7, 6, vc)
}

// Numbers 6 and 7, of the overlaps.
fn lap_index_refusal(source: usize, vc: usize, lap_at: &[usize]) -> Result<(), Refusal>
    ensures { found result ≡ first_from 0 (lap_index_rows source vc lap_at.now) }
{
    let which = arrival::which_of(source);
    refuse::when(!items::all_below(lap_at, 7, which, vc), Refusal::Index)?;
    refuse::when(!items::all_below(lap_at, 7, 2 + which, vc), Refusal::Index)?;
    refuse::when(bad_view_start(source, vc, lap_at), Refusal::Index)?;
    refuse::when(bad_view_offset(source, vc, lap_at), Refusal::Count)
}

// Numbers 6 and 7.
pub fn index_refusal(cuts: &Cuts) -> Result<(), Refusal>
    ensures { found result ≡ first_from 0 (index_rows (held cuts.now)) }
{
    let s = cuts.case;
    let which = arrival::which_of(s.source);
    refuse::when(
        !items::all_below(cuts.hit_at, 2, which, s.vc),
        Refusal::Index,
    )?;
    lap_index_refusal(s.source, s.vc, cuts.lap_at)
}
