#![tactic(auto, unfolding(crate::specs::Prune::cand_codes, crate::specs::Prune::lap_inverted, crate::specs::Prune::lap_codes))]
// The codes of the slices that candidates and overlaps become.
ghost use Rattle.std.specs.Prelude.{◌≡◌};
ghost use Rattle.prune.specs.Prune.{cand_codes, lap_inverted, lap_codes};
ghost use Rattle.prune.specs.Ready.{CandFit, LapFit};

use crate::mode::Part;
use slice::data::Codes;

// The codes of the slice that candidate number k becomes.
pub fn cand_codes(cand_at: &[usize], part: Part, k: usize) -> Codes
    requires { CandFit cand_at.now k }
    ensures { result ≡ cand_codes cand_at.now part k }
{
    Codes {
        source: part.source,
        inverted: part.inverted,
        start: cand_at[2 * k],
        offset: cand_at[2 * k + 1],
    }
}

// 1 where the slice of overlap number j is inverted, else 0: for outline 1 it is, if the overlap is opposing; for outline 2 it never is.
fn lap_inverted(lap_at: &[usize], first: bool, j: usize) -> usize
    requires { LapFit lap_at.now j }
    ensures { result ≡ lap_inverted lap_at.now first j }
{
    if first { lap_at[7 * j + 4] } else { 0 }
}

// The codes of the slice that overlap number j becomes, for outline 1 or for outline 2. Its view is of outline 2 in both.
pub fn lap_codes(lap_at: &[usize], first: bool, j: usize) -> Codes
    requires { LapFit lap_at.now j }
    ensures { result ≡ lap_codes lap_at.now first j }
{
    Codes {
        source: 2,
        inverted: lap_inverted(lap_at, first, j),
        start: lap_at[7 * j + 5],
        offset: lap_at[7 * j + 6],
    }
}
