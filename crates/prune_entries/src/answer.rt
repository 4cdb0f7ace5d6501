// What the entry answers: how many slices there are and where their classes begin, by value.
ghost use Rattle.std.specs.Prelude.{◌≡◌};
ghost use Rattle.prune_entries.specs.Answers.{prune_refused, prune_given};

use prune::counts::Pruned;
use select::class::Starts;

#[repr(C)]
#[derive(Clone, Copy)]
pub struct PruneAnswer {
    pub refusal: u32,
    pub slices: usize,
    pub starts: Starts,
}

pub fn prune_refused(number: u32) -> PruneAnswer
    ensures { result ≡ prune_refused number }
{
    PruneAnswer {
        refusal: number,
        slices: 0,
        starts: Starts {
            pline2: 0,
            pline1_overlapping: 0,
            pline2_overlapping: 0,
        },
    }
}

pub fn prune_given(pruned: Pruned) -> PruneAnswer
    ensures { result ≡ prune_given pruned }
{
    let starts = pruned.starts;
    PruneAnswer {
        refusal: 0,
        slices: pruned.slices,
        starts,
    }
}
