#![tactic(auto, unfolding(basis::specs::Refuse::first_from, basis::specs::Refuse::or_else, crate::specs::PruneEntry::input_rows))]
// The refusals of `mask_prune`, part by part of their table.
ghost use Rattle.std.specs.Prelude.{◌≡◌, ◌++◌, length};
ghost use Rattle.basis.specs.Refuse.{first_from};
ghost use Rattle.basis.specs.Refusals.{found};
ghost use Rattle.prune.specs.Prune.{cands_in, held};
ghost use Rattle.prune_entries.specs.PruneEntry.{cands_rows, codes_rows, numbers_rows, starts_rows, reaches_rows, input_rows};
ghost use Rattle.prune_entries.specs.PruneRows.{lap_list_rows, call_rows, answer_rows, lap_start_rows, room_rows};
ghost use Rattle.slice.specs.Ready.{Countable};

use basis::refuse::Refusal;
use basis::sizes::{MOST_CANDIDATES, MOST_LAPS};
use basis::{items, number, refuse};
use prune::call::Call;
use prune::lists::{Cands, Handed, Overlaps};
use slice::data::SHAPE_WIDTH;
use slice::edition as editions;

const MOST_MODE: u32 = 3;

// Number 1, of the candidates of one outline: the lengths of their lists, and their count.
fn cand_list_refusal(cands: &Cands, count: usize) -> Result<(), Refusal>
    ensures { found result ≡ first_from 0 (cands_rows (cands_in cands.now) count) }
{
    refuse::when(
        refuse::bad_length(cands.at.len(), 2, count),
        Refusal::Length,
    )?;
    refuse::when(
        refuse::bad_length(cands.shape.len(), SHAPE_WIDTH, count),
        Refusal::Length,
    )?;
    refuse::when(
        refuse::bad_length(cands.edition.len(), 1, count),
        Refusal::Length,
    )?;
    refuse::when(
        refuse::bad_length(cands.inside.len(), 1, count),
        Refusal::Length,
    )?;
    refuse::when(MOST_CANDIDATES < count, Refusal::Length)
}

// Number 1, of the overlaps.
fn lap_list_refusal(laps: &Overlaps, count: usize) -> Result<(), Refusal>
    ensures { found result ≡ first_from 0 (lap_list_rows (length laps.now.at.now) (length laps.now.shape.now) (length laps.now.edition.now) count) }
{
    refuse::when(refuse::bad_length(laps.at.len(), 7, count), Refusal::Length)?;
    refuse::when(
        refuse::bad_length(laps.shape.len(), SHAPE_WIDTH, count),
        Refusal::Length,
    )?;
    refuse::when(
        refuse::bad_length(laps.edition.len(), 1, count),
        Refusal::Length,
    )?;
    refuse::when(MOST_LAPS < count, Refusal::Length)
}

// Numbers 2 and 3, of what stands beside the lists.
fn call_refusal(c: Call) -> Result<(), Refusal>
    ensures { found result ≡ first_from 0 (call_rows c) }
{
    refuse::when(refuse::bad_size(c.vc1), Refusal::Outline)?;
    refuse::when(refuse::bad_size(c.vc2), Refusal::Outline)?;
    refuse::when(MOST_MODE < c.mode, Refusal::Code)?;
    refuse::when(refuse::bad_choice(c.opposing), Refusal::Code)
}

// Number 3, of the lists.
fn answer_refusal(inside1: &[u8], inside2: &[u8], lap_at: &[usize]) -> Result<(), Refusal>
    ensures { found result ≡ first_from 0 (answer_rows inside1.now inside2.now lap_at.now) }
{
    refuse::when(!items::answers_known(inside1), Refusal::Code)?;
    refuse::when(!items::answers_known(inside2), Refusal::Code)?;
    refuse::when(!items::choices_known(lap_at, 7, 4), Refusal::Code)
}

// Numbers 2 and 3.
fn code_refusal(g: &Handed) -> Result<(), Refusal>
    ensures { found result ≡ first_from 0 (codes_rows (held g.now)) }
{
    call_refusal(g.call)?;
    answer_refusal(g.first.inside, g.second.inside, g.laps.at)
}

// Number 5.
fn number_refusal(g: &Handed) -> Result<(), Refusal>
    ensures { found result ≡ first_from 0 (numbers_rows (held g.now)) }
{
    refuse::when(!number::all_in_range(g.first.shape), Refusal::Number)?;
    refuse::when(!number::all_in_range(g.second.shape), Refusal::Number)?;
    refuse::when(!number::all_in_range(g.laps.shape), Refusal::Number)
}

// Number 6, of the overlaps.
fn lap_start_refusal(c: Call, lap_at: &[usize]) -> Result<(), Refusal>
    ensures { found result ≡ first_from 0 (lap_start_rows c lap_at.now) }
{
    refuse::when(!items::all_below(lap_at, 7, 0, c.vc1), Refusal::Index)?;
    refuse::when(!items::all_below(lap_at, 7, 1, c.vc2), Refusal::Index)?;
    refuse::when(!items::all_below(lap_at, 7, 2, c.vc1), Refusal::Index)?;
    refuse::when(!items::all_below(lap_at, 7, 3, c.vc2), Refusal::Index)?;
    refuse::when(!items::all_below(lap_at, 7, 5, c.vc2), Refusal::Index)
}

// Number 6: each index against its own outline. The view of an overlap is of outline 2.
fn start_refusal(g: &Handed) -> Result<(), Refusal>
    ensures { found result ≡ first_from 0 (starts_rows (held g.now)) }
{
    refuse::when(
        !items::all_below(g.first.at, 2, 0, g.call.vc1),
        Refusal::Index,
    )?;
    refuse::when(
        !items::all_below(g.second.at, 2, 0, g.call.vc2),
        Refusal::Index,
    )?;
    lap_start_refusal(g.call, g.laps.at)
}

// Number 7: each offset against its own outline.
fn reach_refusal(g: &Handed) -> Result<(), Refusal>
    ensures { found result ≡ first_from 0 (reaches_rows (held g.now)) }
{
    refuse::when(
        !items::all_at_most(g.first.at, 2, 1, g.call.vc1),
        Refusal::Count,
    )?;
    refuse::when(
        !items::all_at_most(g.second.at, 2, 1, g.call.vc2),
        Refusal::Count,
    )?;
    refuse::when(
        !items::all_at_most(g.laps.at, 7, 6, g.call.vc2),
        Refusal::Count,
    )
}

// Numbers 5 to 7. What is looked at last stands in the innermost function: the compiler takes a call behind many ways out for rare, and leaves it a call.
#[inline(always)]
fn content_refusal(g: &Handed) -> Result<(), Refusal>
    ensures { found result ≡ first_from 0 (numbers_rows (held g.now) ++ (starts_rows (held g.now) ++ reaches_rows (held g.now))) }
{
    number_refusal(g)?;
    start_refusal(g)?;
    reach_refusal(g)
}

// Numbers 1 to 7 without 4: what is handed in.
pub(crate) fn input_refusal(g: &Handed) -> Result<(), Refusal>
    ensures { found result ≡ first_from 0 (input_rows (held g.now)) }
{
    cand_list_refusal(&g.first, g.call.count1)?;
    cand_list_refusal(&g.second, g.call.count2)?;
    lap_list_refusal(&g.laps, g.call.laps)?;
    code_refusal(g)?;
    content_refusal(g)
}

// Number 9: the three lists are too short for so many slices.
pub fn room_refusal(need: usize, at: usize, slice: usize, edition: usize) -> Result<(), Refusal>
    requires { Countable need }
    ensures { found result ≡ first_from 0 (room_rows need at slice edition) }
{
    slice::faults::room_refusal(need, at, slice)?;
    editions::room_refusal(need, edition)
}
