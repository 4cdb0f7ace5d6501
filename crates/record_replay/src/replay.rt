#![tactic(auto, using(basis::specs::RefuseLaws::answers), unfolding(crate::specs::Replayed::replay_of))]
// A replay: a record is read, and its stitch is run again.
ghost use Rattle.std.specs.Prelude.{◌≡◌};
ghost use Rattle.stitch.specs.Lent.{lists_of, SameMemory};
ghost use Rattle.stitch_entries.specs.StitchEntry.{StitchLeft};
ghost use Rattle.record.specs.Record.{lent, stitch_by, editions_by};
ghost use Rattle.record_replay.specs.Replayed.{replay_refused, replay_of, ReplayLeft};
ghost use Rattle.record_replay.specs.Ready.{fronts, Held};

use record::head::{Head, Room};
use record_form::form;
use record_read::read;
use slice::data::{CODE_WIDTH, SHAPE_WIDTH};
use stitch::lent::Lent;
use stitch_entries::answer::StitchAnswer;
use stitch_entries::stitching;
use stitch_run::plan::Slices;

// What a replay answers: the version of its record and the counts of its stitch, or its number and nothing.
#[repr(C)]
#[derive(Clone, Copy)]
pub struct ReplayAnswer {
    pub refusal: u32,
    pub version: u32,
    pub slices: usize,
    pub rounds: usize,
    pub loops: usize,
    pub chains: usize,
}

fn replay_refused(number: u32) -> ReplayAnswer
    ensures { result ≡ replay_refused number }
{
    ReplayAnswer {
        refusal: number,
        version: 0,
        slices: 0,
        rounds: 0,
        loops: 0,
        chains: 0,
    }
}

// What a replay says of what the stitch answered.
fn replay_of(version: u32, slices: usize, a: StitchAnswer) -> ReplayAnswer
    ensures { result ≡ replay_of version slices a }
{
    if a.refusal != 0 {
        return replay_refused(a.refusal);
    }
    ReplayAnswer {
        refusal: 0,
        version,
        slices,
        rounds: a.rounds,
        loops: a.loops,
        chains: a.chains,
    }
}

// Stitches what was read to the fronts of these lists, in the editions of the record.
fn stitch_held(h: Head, read: &Room, x: &mut Lent) -> StitchAnswer
    requires { Held h.plan (lent read.now) }
    ensures same { SameMemory x.old x.new }
    ensures left { StitchLeft (stitch_by (fronts h.plan (lent read.now)) h.plan) (editions_by (fronts h.plan (lent read.now)) h) (lists_of x.old) result (lists_of x.new) }
{
    let p = h.plan;
    let n1 = 3 * p.vc1;
    let n2 = 3 * p.vc2;
    let n3 = CODE_WIDTH * p.slices;
    let n4 = SHAPE_WIDTH * p.slices;
    let s = Slices {
        outline1: &read.outline1[0..n1],
        outline2: &read.outline2[0..n2],
        slice_at: &read.slice_at[0..n3],
        slice: &read.slice[0..n4],
        plan: p,
    };
    let slice_edition = &read.slice_edition[0..p.slices];
    stitching::stitched(&s, h.edition1, h.edition2, slice_edition, x)
}

// Reads the record in `bytes` and runs its stitch in the lent lists, which are those of `mask_stitch`.
pub fn replay(bytes: &[u8], x: &mut Lent) -> ReplayAnswer
    ensures same { SameMemory x.old x.new }
    ensures left { ReplayLeft bytes.now (lists_of x.old) result (lists_of x.new) }
{
    let mut outline1 = [0.0f64; form::OUTLINE];
    let mut outline2 = [0.0f64; form::OUTLINE];
    let mut slice_at = [0usize; form::CODES];
    let mut slice = [0.0f64; form::SHAPES];
    let mut slice_edition = [0u32; form::TAKEN_SLICES];
    let mut room = Room {
        outline1: &mut outline1,
        outline2: &mut outline2,
        slice_at: &mut slice_at,
        slice: &mut slice,
        slice_edition: &mut slice_edition,
    };
    match read::read(bytes, &mut room) {
        Err(refusal) => replay_refused(refusal.number()),
        Ok(seen) => {
            let version = seen.version as u32;
            let a = stitch_held(seen.head, &room, x);
            replay_of(version, seen.head.plan.slices, a)
        }
    }
}
