#![tactic(auto, unfolding(basis::specs::Refuse::first_from, basis::specs::Refuse::or_else))]
// The stitch by tolerances: what is refused, then the stitch.
ghost use Rattle.std.specs.Prelude.{◌≡◌};
ghost use Rattle.basis.specs.Number.{tolerance_of};
ghost use Rattle.basis.specs.Refuse.{first_from};
ghost use Rattle.basis.specs.Refusals.{found};
ghost use Rattle.stitch_run.specs.Stitch.{given, given_of, plan_of};
ghost use Rattle.stitch.specs.Lent.{lists, lists_of, SameMemory};
ghost use Rattle.slice.specs.Editions.{editions};
ghost use Rattle.stitch_entries.specs.StitchEntry.{StitchLeft};
ghost use Rattle.stitch_faults.specs.StitchTable.{input_rows, stitch_refusal};

use crate::answer;
use crate::answer::StitchAnswer;
use basis::number::Tolerance;
use basis::refuse::Refusal;
use select::class::Starts;
use slice::edition;
use stitch::lent::Lent;
use stitch_faults::faults;
use stitch_faults::faults::Lengths;
use stitch_lists::write;
use stitch_run::plan::{Plan, Slices};

// Numbers 1 to 8.
fn input_refusal(s: &Slices, editions: usize) -> Result<(), Refusal>
    ensures { found result ≡ first_from 0 (input_rows (given_of s.now) editions) }
{
    edition::list_refusal(editions, s.plan.slices)?;
    faults::list_refusal(s)?;
    faults::code_refusal(s)?;
    faults::number_refusal(s)?;
    faults::index_refusal(s)
}

// All numbers. Editions are compared, and the need is worked out, only where 1 to 8 found nothing. There is no number 10 (request K12).
fn refusal(
    s: &Slices,
    edition1: u32,
    edition2: u32,
    slice_edition: &[u32],
    l: Lengths,
) -> Result<(), Refusal>
    ensures { found result ≡ stitch_refusal (given_of s.now) (editions edition1 edition2 slice_edition.now) l }
{
    input_refusal(s, slice_edition.len())?;
    edition::edition_refusal(edition1, edition2, s.slice_at, slice_edition)?;
    faults::room_refusal(s, l)
}

// The stitch of what was handed in.
pub fn stitched(
    s: &Slices,
    edition1: u32,
    edition2: u32,
    slice_edition: &[u32],
    x: &mut Lent,
) -> StitchAnswer
    ensures same { SameMemory x.old x.new }
    ensures left { StitchLeft (given_of s.now) (editions edition1 edition2 slice_edition.now) (lists_of x.old) result (lists_of x.new) }
{
    let l = Lengths {
        room: x.room.len(),
        ends: x.ends.len(),
        chain: x.chain.len(),
        chain_ends: x.chain_ends.len(),
        chain_how: x.chain_how.len(),
    };
    match refusal(s, edition1, edition2, slice_edition, l) {
        Err(refusal) => answer::stitch_refused(refusal.number()),
        Ok(()) => answer::stitch_given(write::write_stitch(s, x)),
    }
}

// The slices stitched into closed loops. Each slice must have the edition of its outline. The parameters are those of `mask_stitch`.
pub fn entry(
    outline1: &[f64],
    vc1: usize,
    edition1: u32,
    outline2: &[f64],
    vc2: usize,
    edition2: u32,
    slice_at: &[usize],
    slice: &[f64],
    slice_edition: &[u32],
    slices: usize,
    pline2: usize,
    pline1_overlapping: usize,
    pline2_overlapping: usize,
    selector: u32,
    tolerance_x: f64,
    tolerance_y: f64,
    room: &mut [f64],
    ends: &mut [usize],
    chain: &mut [usize],
    chain_ends: &mut [usize],
    chain_how: &mut [usize],
) -> StitchAnswer
    ensures { StitchLeft (given outline1.now outline2.now slice_at.now slice.now (plan_of vc1 vc2 slices (record { pline2 = pline2; pline1_overlapping = pline1_overlapping; pline2_overlapping = pline2_overlapping }) selector (tolerance_of tolerance_x tolerance_y))) (editions edition1 edition2 slice_edition.now) (lists room.old ends.old chain.old chain_ends.old chain_how.old) result (lists room.new ends.new chain.new chain_ends.new chain_how.new) }
{
    let s = Slices {
        outline1,
        outline2,
        slice_at,
        slice,
        plan: Plan {
            vc1,
            vc2,
            slices,
            starts: Starts {
                pline2,
                pline1_overlapping,
                pline2_overlapping,
            },
            selector,
            tolerance: Tolerance {
                x: tolerance_x,
                y: tolerance_y,
            },
        },
    };
    let mut x = Lent {
        room,
        ends,
        chain,
        chain_ends,
        chain_how,
    };
    stitched(&s, edition1, edition2, slice_edition, &mut x)
}
