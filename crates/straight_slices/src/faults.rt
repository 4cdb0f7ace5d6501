#![tactic(auto, unfolding(basis::specs::Refuse::first_from, basis::specs::Refuse::or_else, cut_entries::specs::CutRows::list_rows, crate::specs::Rows::input_rows))]
// The refusals of the call, part by part of their table.
ghost use Rattle.std.specs.Prelude.{◌≡◌};
ghost use Rattle.basis.specs.Refuse.{first_from};
ghost use Rattle.basis.specs.Refusals.{found};
ghost use Rattle.straight_slices.specs.Slices.{handed};
ghost use Rattle.straight_slices.specs.Rows.{more_list_rows, list_rows, code_rows, number_rows, straight_rows, index_rows, input_rows};

use crate::job::{Handed, Job};
use basis::number::Tolerance;
use basis::refuse::Refusal;
use basis::{items, number, refuse};
use straight_cut::flat;

const MOST_MODE: u32 = 3;

// Number 1, of outline 2 and of the overlaps' editions.
fn more_list_refusal(len: usize, vc: usize, editions: usize, laps: usize) -> Result<(), Refusal>
    ensures { found result ≡ first_from 0 (more_list_rows len vc editions laps) }
{
    refuse::when(refuse::bad_length(len, 3, vc), Refusal::Length)?;
    refuse::when(refuse::bad_length(editions, 1, laps), Refusal::Length)
}

// Number 1.
fn list_refusal(h: &Handed) -> Result<(), Refusal>
    ensures { found result ≡ first_from 0 (list_rows (handed h.now)) }
{
    let cuts = h.first_cuts();
    cut_entries::faults::list_refusal(&cuts)?;
    more_list_refusal(h.outline2.len(), h.job.vc2, h.lap_edition.len(), h.job.laps)
}

// Numbers 2 and 3.
fn code_refusal(job: Job, lap_at: &[usize]) -> Result<(), Refusal>
    ensures { found result ≡ first_from 0 (code_rows job lap_at.now) }
{
    refuse::when(refuse::bad_size(job.vc1), Refusal::Outline)?;
    refuse::when(refuse::bad_size(job.vc2), Refusal::Outline)?;
    refuse::when(MOST_MODE < job.mode, Refusal::Code)?;
    refuse::when(refuse::bad_choice(job.opposing), Refusal::Code)?;
    refuse::when(!items::choices_known(lap_at, 7, 4), Refusal::Code)
}

// Numbers 4 and 5.
fn number_refusal(
    tolerance: Tolerance,
    outline1: &[f64],
    outline2: &[f64],
    hit: &[f64],
    lap: &[f64],
) -> Result<(), Refusal>
    ensures { found result ≡ first_from 0 (number_rows tolerance outline1.now outline2.now hit.now lap.now) }
{
    refuse::when(!number::in_tolerance(tolerance), Refusal::Tolerance)?;
    refuse::when(!number::all_in_range(outline1), Refusal::Number)?;
    refuse::when(!number::all_in_range(outline2), Refusal::Number)?;
    refuse::when(!number::all_in_range(hit), Refusal::Number)?;
    refuse::when(!number::all_in_range(lap), Refusal::Number)
}

// Number 18.
fn straight_refusal(
    outline1: &[f64],
    outline2: &[f64],
    hit: &[f64],
    lap: &[f64],
) -> Result<(), Refusal>
    ensures { found result ≡ first_from 0 (straight_rows outline1.now outline2.now hit.now lap.now) }
{
    refuse::when(!flat::straight_outline(outline1), Refusal::Range)?;
    refuse::when(!flat::straight_outline(outline2), Refusal::Range)?;
    refuse::when(!flat::whole_points(hit), Refusal::Range)?;
    refuse::when(!flat::straight_laps(lap), Refusal::Range)
}

// Numbers 6 and 7: each index against its own outline. The view of an overlap is of outline 2.
fn index_refusal(job: Job, hit_at: &[usize], lap_at: &[usize]) -> Result<(), Refusal>
    ensures { found result ≡ first_from 0 (index_rows job hit_at.now lap_at.now) }
{
    refuse::when(!items::all_below(hit_at, 2, 0, job.vc1), Refusal::Index)?;
    refuse::when(!items::all_below(hit_at, 2, 1, job.vc2), Refusal::Index)?;
    refuse::when(!items::all_below(lap_at, 7, 0, job.vc1), Refusal::Index)?;
    refuse::when(!items::all_below(lap_at, 7, 1, job.vc2), Refusal::Index)?;
    refuse::when(!items::all_below(lap_at, 7, 2, job.vc1), Refusal::Index)?;
    refuse::when(!items::all_below(lap_at, 7, 3, job.vc2), Refusal::Index)?;
    refuse::when(!items::all_below(lap_at, 7, 5, job.vc2), Refusal::Index)?;
    refuse::when(!items::all_at_most(lap_at, 7, 6, job.vc2), Refusal::Count)
}

// Numbers 1 to 7, with 18 behind 5: what is handed in.
pub(crate) fn input_refusal(h: &Handed) -> Result<(), Refusal>
    ensures { found result ≡ first_from 0 (input_rows (handed h.now)) }
{
    list_refusal(h)?;
    code_refusal(h.job, h.lap_at)?;
    number_refusal(h.job.tolerance, h.outline1, h.outline2, h.hit, h.lap)?;
    straight_refusal(h.outline1, h.outline2, h.hit, h.lap)?;
    index_refusal(h.job, h.hit_at, h.lap_at)
}
