// What a call has: its numbers and its lists, made at its entry and handed on as one.
ghost use Rattle.std.specs.Prelude.{◌≡◌, ◌+◌, ◌*◌};
ghost use Rattle.cut.specs.Cuts.{held, given, case_of};
ghost use Rattle.cut_entries.specs.CutRows.{FewCuts};
ghost use Rattle.straight_slices.specs.Slices.{handed, first_cuts, second_cuts, most_call};

use basis::number::Tolerance;
use cut::arrival::{Case, Cuts};
use prune::call::Call;

// The mode and the yes/no code of opposing directions, the outlines' vertex counts and editions, the counts of intersections and overlaps, the tolerance.
// The first two stay numbers: the entries of `mask` fill them in as C hands them over.
#[derive(Clone, Copy)]
pub struct Job {
    pub mode: u32,
    pub opposing: u32,
    pub vc1: usize,
    pub edition1: u32,
    pub vc2: usize,
    pub edition2: u32,
    pub hits: usize,
    pub laps: usize,
    pub tolerance: Tolerance,
}

impl Job {
    // The call of the pruning with the most candidates that the cuts allow, one a cut, of each outline.
    pub(crate) fn most_call(self) -> Call
        requires { FewCuts (self.hits + 2 * self.laps) }
        ensures { result ≡ most_call self }
    {
        let count = self.hits + 2 * self.laps;
        Call {
            mode: self.mode,
            opposing: self.opposing,
            vc1: self.vc1,
            vc2: self.vc2,
            count1: count,
            count2: count,
            laps: self.laps,
        }
    }
}

// Both outlines, the intersections, the overlaps with the edition beside each, and the numbers beside them.
#[derive(Clone, Copy)]
pub struct Handed<'a> {
    pub job: Job,
    pub outline1: &'a [f64],
    pub outline2: &'a [f64],
    pub hit_at: &'a [usize],
    pub hit: &'a [f64],
    pub lap_at: &'a [usize],
    pub lap: &'a [f64],
    pub lap_edition: &'a [u32],
}

impl<'a> Handed<'a> {
    // The cuts of one of the two outlines.
    fn cuts_of(&self, outline: &'a [f64], vc: usize, source: usize) -> Cuts<'a>
        ensures { held result ≡ given outline.now self.now.hit_at.now self.now.hit.now self.now.lap_at.now self.now.lap.now (case_of vc source self.now.job.hits self.now.job.laps self.now.job.tolerance) }
    {
        let tolerance = self.job.tolerance;
        Cuts {
            outline,
            hit_at: self.hit_at,
            hit: self.hit,
            lap_at: self.lap_at,
            lap: self.lap,
            case: Case {
                vc,
                source,
                hits: self.job.hits,
                laps: self.job.laps,
                tolerance,
            },
        }
    }

    // The cuts of outline 1.
    pub(crate) fn first_cuts(&self) -> Cuts<'a>
        ensures { held result ≡ first_cuts (handed self.now) }
    {
        self.cuts_of(self.outline1, self.job.vc1, 1)
    }

    // The cuts of outline 2.
    pub(crate) fn second_cuts(&self) -> Cuts<'a>
        ensures { held result ≡ second_cuts (handed self.now) }
    {
        self.cuts_of(self.outline2, self.job.vc2, 2)
    }
}
