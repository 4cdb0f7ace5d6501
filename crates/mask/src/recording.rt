// Records of stitches: written, and replayed.
ghost use Rattle.basis.specs.Number.{tolerance_of};
ghost use Rattle.slice.specs.Editions.{editions};
ghost use Rattle.stitch_run.specs.Stitch.{given, plan_of};
ghost use Rattle.stitch.specs.Lent.{lists};
ghost use Rattle.record_write.specs.Writer.{WriteLeft};
ghost use Rattle.record_replay.specs.Replayed.{ReplayLeft};

use basis::answer::CountAnswer;
use basis::number::Tolerance;
use record_replay::replay::ReplayAnswer;
use record_write::kept::Kept;
use select::class::Starts;
use stitch::lent::Lent;
use stitch_run::plan::{Plan, Slices};

// Writes the record of a stitch, of the version asked for, at the front of the lent bytes. Says how many bytes it has.
pub fn mask_record_write(
    version: u32,
    outline1: &[f64],
    vc1: usize,
    edition1: u32,
    outline2: &[f64],
    vc2: usize,
    edition2: u32,
    slice_at: &[usize],
    slice: &[f64],
    slice_edition: &[u32],
    slices: usize,
    pline2: usize,
    pline1_overlapping: usize,
    pline2_overlapping: usize,
    selector: u32,
    tolerance_x: f64,
    tolerance_y: f64,
    bytes: &mut [u8],
) -> CountAnswer
    ensures { WriteLeft version (given outline1.now outline2.now slice_at.now slice.now (plan_of vc1 vc2 slices (record { pline2 = pline2; pline1_overlapping = pline1_overlapping; pline2_overlapping = pline2_overlapping }) selector (tolerance_of tolerance_x tolerance_y))) (editions edition1 edition2 slice_edition.now) bytes.old result bytes.new }
{
    let starts = Starts {
        pline2,
        pline1_overlapping,
        pline2_overlapping,
    };
    let tolerance = Tolerance {
        x: tolerance_x,
        y: tolerance_y,
    };
    let plan = Plan {
        vc1,
        vc2,
        slices,
        starts,
        selector,
        tolerance,
    };
    let kept = Kept {
        slices: Slices {
            outline1,
            outline2,
            slice_at,
            slice,
            plan,
        },
        edition1,
        edition2,
        slice_edition,
    };
    record_write::write::write(version, &kept, bytes)
}

// A record's stitch, run again in the lent lists, which are those of `mask_stitch`.
pub fn mask_record_replay(
    bytes: &[u8],
    room: &mut [f64],
    ends: &mut [usize],
    chain: &mut [usize],
    chain_ends: &mut [usize],
    chain_how: &mut [usize],
) -> ReplayAnswer
    ensures { ReplayLeft bytes.now (lists room.old ends.old chain.old chain_ends.old chain_how.old) result (lists room.new ends.new chain.new chain_ends.new chain_how.new) }
{
    let mut lent = Lent {
        room,
        ends,
        chain,
        chain_ends,
        chain_how,
    };
    record_replay::replay::replay(bytes, &mut lent)
}
