#![tactic(auto, unfolding(crate::specs::Prune::pruned_at))]
// How many slices there are, and where their classes begin.
ghost use Rattle.std.specs.Prelude.{◌≡◌};
ghost use Rattle.prune.specs.Prune.{pruned_at};

use select::class::Starts;

#[derive(Clone, Copy)]
pub struct Pruned {
    pub slices: usize,
    pub starts: Starts,
}

// Where two parts of the list end, one behind the other.
#[derive(Clone, Copy)]
pub struct Ends {
    pub first: usize,
    pub second: usize,
}

// The answer, from the ends of the four parts.
pub fn pruned_at(kept: Ends, laps: Ends) -> Pruned
    ensures { result ≡ pruned_at kept laps }
{
    Pruned {
        slices: laps.second,
        starts: Starts {
            pline2: kept.first,
            pline1_overlapping: kept.second,
            pline2_overlapping: laps.first,
        },
    }
}
