// What the stitch answers: flat, by value. On a refusal all but its number is 0.
ghost use Rattle.std.specs.Prelude.{◌≡◌};
ghost use Rattle.stitch_entries.specs.Answers.{stitch_refused, stitch_given};

use stitch::write::Stitched;

#[repr(C)]
#[derive(Clone, Copy)]
pub struct StitchAnswer {
    pub refusal: u32,
    pub rounds: usize,
    pub loops: usize,
    pub chains: usize,
}

pub fn stitch_refused(number: u32) -> StitchAnswer
    ensures { result ≡ stitch_refused number }
{
    StitchAnswer {
        refusal: number,
        rounds: 0,
        loops: 0,
        chains: 0,
    }
}

pub(crate) fn stitch_given(s: Stitched) -> StitchAnswer
    ensures { result ≡ stitch_given s.rounds s.loops s.chains }
{
    StitchAnswer {
        refusal: 0,
        rounds: s.rounds,
        loops: s.loops,
        chains: s.chains,
    }
}
