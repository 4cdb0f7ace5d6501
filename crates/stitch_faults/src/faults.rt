#![tactic(auto, using(crate::proofs::Thirds::third), unfolding(basis::specs::Refuse::first_from, basis::specs::Refuse::or_else, crate::specs::StitchRows::starts_fault))]
// The refusals of a stitch by tolerances, part by part of their table.
ghost use Rattle.std.specs.Prelude.{◌≡◌};
ghost use Rattle.basis.specs.Refuse.{first_from};
ghost use Rattle.basis.specs.Refusals.{found};
ghost use Rattle.stitch.specs.Lent.{NeedFit};
ghost use Rattle.stitch_run.specs.Stitch.{given_of};
ghost use Rattle.stitch_faults.specs.StitchRows.{starts_fault};
ghost use Rattle.stitch_faults.specs.StitchTable.{list_part, code_part, number_part, index_part, room_part};

use basis::refuse::Refusal;
use basis::sizes::MOST_SLICES;
use basis::{number, refuse};
use select::class::Starts;
use stitch::write;
use stitch_run::plan::Slices;

// How long the lent lists are. Not the lists: the tables `stitch_refusal` and `named_stitch_refusal` and their theorems are over lengths.
#[derive(Clone, Copy)]
pub struct Lengths {
    pub room: usize,
    pub ends: usize,
    pub chain: usize,
    pub chain_ends: usize,
    pub chain_how: usize,
}

// Number 1.
pub fn list_refusal(s: &Slices) -> Result<(), Refusal>
    ensures { found result ≡ first_from 0 (list_part (given_of s.now)) }
{
    let p = s.plan;
    refuse::when(
        refuse::bad_length(s.outline1.len(), 3, p.vc1),
        Refusal::Length,
    )?;
    refuse::when(
        refuse::bad_length(s.outline2.len(), 3, p.vc2),
        Refusal::Length,
    )?;
    slice::faults::list_refusal(s.slice_at.len(), s.slice.len(), p.slices)?;
    refuse::when(MOST_SLICES < p.slices, Refusal::Length)
}

// Numbers 2 and 3.
pub fn code_refusal(s: &Slices) -> Result<(), Refusal>
    ensures { found result ≡ first_from 0 (code_part (given_of s.now)) }
{
    let p = s.plan;
    refuse::when(refuse::bad_size(p.vc1), Refusal::Outline)?;
    refuse::when(refuse::bad_size(p.vc2), Refusal::Outline)?;
    refuse::when(refuse::bad_choice(p.selector), Refusal::Code)?;
    slice::faults::code_refusal(s.slice_at)
}

// Numbers 4 and 5.
pub fn number_refusal(s: &Slices) -> Result<(), Refusal>
    ensures { found result ≡ first_from 0 (number_part (given_of s.now)) }
{
    refuse::when(!number::in_tolerance(s.plan.tolerance), Refusal::Tolerance)?;
    refuse::when(!number::all_in_range(s.outline1), Refusal::Number)?;
    refuse::when(!number::all_in_range(s.outline2), Refusal::Number)?;
    refuse::when(!number::all_in_range(s.slice), Refusal::Number)
}

// Number 8: the classes do not begin in order.
fn bad_starts(s: Starts, count: usize) -> bool
    ensures { result ≡ starts_fault s count }
{
    s.pline1_overlapping < s.pline2
        || (s.pline2_overlapping < s.pline1_overlapping || count < s.pline2_overlapping)
}

// Numbers 6, 7 and 8.
pub fn index_refusal(s: &Slices) -> Result<(), Refusal>
    ensures { found result ≡ first_from 0 (index_part (given_of s.now)) }
{
    let p = s.plan;
    slice::faults::index_refusal(p.vc1, p.vc2, s.slice_at)?;
    refuse::when(bad_starts(p.starts, p.slices), Refusal::Starts)
}

// Number 9.
pub fn room_refusal(s: &Slices, l: Lengths) -> Result<(), Refusal>
    requires { NeedFit s.now.slice_at.now s.now.plan.slices }
    ensures { found result ≡ first_from 0 (room_part (given_of s.now) l) }
{
    let slices = s.plan.slices;
    let need = write::room_need(s.slice_at, slices);
    refuse::when(l.room / 3 < need, Refusal::Room)?;
    refuse::when(l.ends < slices, Refusal::Room)?;
    refuse::when(l.chain < slices, Refusal::Room)?;
    refuse::when(l.chain_ends < slices, Refusal::Room)?;
    refuse::when(l.chain_how < slices, Refusal::Room)
}
