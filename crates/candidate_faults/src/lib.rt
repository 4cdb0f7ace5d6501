#![tactic(auto, unfolding(basis::specs::Refuse::first_from, basis::specs::Refuse::or_else))]
// The refusals that are the candidates' own: 1 and 5 of the splits, 9 of the four lent lists.
ghost use Rattle.std.specs.Prelude.{◌≡◌};
ghost use Rattle.basis.specs.Refuse.{first_from};
ghost use Rattle.basis.specs.Refusals.{found};
ghost use Rattle.candidate_faults.specs.CandidateRows.{split_length_rows, split_rows, cand_room_rows, Countable};

use basis::refuse::Refusal;
use basis::{number, refuse};

// How long the four lent lists are.
#[derive(Clone, Copy)]
pub struct Lengths {
    pub at: usize,
    pub cand: usize,
    pub probe: usize,
    pub edition: usize,
}

// Number 1, of the splits, for so many cuts.
pub fn split_length_refusal(count: usize, len: usize) -> Result<(), Refusal>
    ensures { found result ≡ first_from 0 (split_length_rows count len) }
{
    refuse::when(refuse::bad_length(len, 9, count), Refusal::Length)
}

// Number 5, of the splits.
pub fn split_refusal(splits: &[f64]) -> Result<(), Refusal>
    ensures { found result ≡ first_from 0 (split_rows splits.now) }
{
    refuse::when(!number::all_in_range(splits), Refusal::Number)
}

// Number 9, for so many cuts.
pub fn room_refusal(count: usize, lent: Lengths) -> Result<(), Refusal>
    requires { Countable count }
    ensures { found result ≡ first_from 0 (cand_room_rows count lent) }
{
    refuse::when(lent.at < 2 * count, Refusal::Room)?;
    refuse::when(lent.cand < 6 * count, Refusal::Room)?;
    refuse::when(lent.probe < 6 * count, Refusal::Room)?;
    refuse::when(lent.edition < count, Refusal::Room)
}
