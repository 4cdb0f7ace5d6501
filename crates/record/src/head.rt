#![tactic(auto, using(basis::specs::Choice::cases), unfolding(basis::specs::Refuse::first_of, basis::specs::Refuse::first_from, basis::specs::Refuse::or_else, crate::specs::Record::mark_ok, crate::specs::Record::second_in))]
// The head of a record: its frame, its numbers, and what is refused by them.
ghost use Rattle.std.specs.Prelude.{◌≡◌};
ghost use Rattle.basis.specs.Refuse.{first_of, first_from};
ghost use Rattle.basis.specs.Refusals.{found};
ghost use Rattle.basis.specs.Number.{tolerance_of};
ghost use Rattle.fields.specs.Fields.{num_of};
ghost use Rattle.record.specs.Record.{mark_ok, number_in, form_in, frame_rows, second_in, length_of, taken_rows, count_rows, room_rows, lent, lengths_of};
ghost use Rattle.record.specs.Ready.{ByteOr, HeadFit, HeadRead, Sized, Counts};
ghost use Rattle.record_form.specs.Ready.{FormOk};

use basis::number::Tolerance;
use basis::refuse;
use basis::refuse::Refusal;
use fields::{copy, field, shape};
use record_form::form;
use record_form::form::Version;
use select::class::Starts;
use stitch_run::plan::Plan;

// What a head says: the plan of the stitch, and the outlines' editions.
#[derive(Clone, Copy)]
pub struct Head {
    pub plan: Plan,
    pub edition1: u32,
    pub edition2: u32,
}

// What a reader says of a record: its version and its head.
#[derive(Clone, Copy)]
pub struct Seen {
    pub version: usize,
    pub head: Head,
}

// The lent lists that a record is read to: x, y, bulge of each vertex; codes, shape and edition of each slice.
#[derive(Drop)]
pub struct Room<'a> {
    pub outline1: &'a mut [f64],
    pub outline2: &'a mut [f64],
    pub slice_at: &'a mut [usize],
    pub slice: &'a mut [f64],
    pub slice_edition: &'a mut [u32],
}

// How long the lists are that a record is read to.
#[derive(Clone, Copy)]
pub struct Lengths {
    pub outline1: usize,
    pub outline2: usize,
    pub slice_at: usize,
    pub slice: usize,
    pub slice_edition: usize,
}

// At least five bytes, the first three of them `PBR`.
fn is_marked(bytes: &[u8]) -> bool
    ensures { result ≡ mark_ok bytes.now }
{
    5 <= bytes.len() && (bytes[0] == b'P' && (bytes[1] == b'B' && bytes[2] == b'R'))
}

// The byte at a place, 0 beyond the end.
fn byte(bytes: &[u8], at: usize) -> usize
    ensures { ByteOr bytes.now at result }
{
    if at < bytes.len() {
        field::wide(bytes[at])
    } else {
        0
    }
}

// The number in the field of the version.
fn number_in(bytes: &[u8]) -> usize
    ensures { result ≡ number_in bytes.now }
{
    byte(bytes, 3) + 256 * byte(bytes, 4)
}

// The table of the version that the bytes name.
pub fn version_in(bytes: &[u8]) -> Version
    ensures { result ≡ form_in bytes.now }
{
    form::version_for(number_in(bytes))
}

// Numbers 11, 12 and, before the counts are known, 13.
pub fn frame_refusal(bytes: &[u8], v: Version) -> Result<(), Refusal>
    requires { FormOk v }
    ensures { found result ≡ first_of (frame_rows v bytes.now) }
{
    refuse::when(!is_marked(bytes), Refusal::Mark)?;
    refuse::when(number_in(bytes) != v.number, Refusal::Version)?;
    refuse::when(bytes.len() < form::head_bytes(v), Refusal::Size)?;
    refuse::when(v.most < bytes.len(), Refusal::Size)
}

// The pattern of y's tolerance: that of x where the version has no field for it.
fn second_in(width: usize, x: usize, y: usize) -> usize
    ensures { result ≡ second_in width x y }
{
    if width == 0 { x } else { y }
}

fn tolerance_in(width: usize, x: usize, y: usize) -> Tolerance
    ensures { result ≡ tolerance_of (num_of x) (num_of (second_in width x y)) }
{
    Tolerance {
        x: copy::number(x),
        y: copy::number(second_in(width, x, y)),
    }
}

// What a head that is there says.
pub fn head_in(bytes: &[u8], v: Version) -> Head
    requires { HeadFit v bytes.now }
    ensures { HeadRead v bytes.now result }
{
    let mut values = [0usize; 15];
    shape::read_shape(bytes, 0, &form::head_widths(v), &mut values, 0);
    let [
        _,
        _,
        _,
        _,
        vc1,
        vc2,
        selector,
        x,
        y,
        edition1,
        edition2,
        pline2,
        pline1_overlapping,
        pline2_overlapping,
        slices,
    ] = values;
    let starts = Starts {
        pline2,
        pline1_overlapping,
        pline2_overlapping,
    };
    let plan = Plan {
        vc1,
        vc2,
        slices,
        starts,
        selector: selector as u32,
        tolerance: tolerance_in(v.second, x, y),
    };
    Head {
        plan,
        edition1: edition1 as u32,
        edition2: edition2 as u32,
    }
}

// The length as the counts say.
pub fn length_of(p: Plan, v: Version) -> usize
    requires { Sized v p }
    ensures { result ≡ length_of v p }
{
    let head = form::head_bytes(v);
    let stride = form::slice_bytes(v);
    head + (p.vc1 * form::VERTEX_BYTES + (p.vc2 * form::VERTEX_BYTES + p.slices * stride))
}

// Numbers 1 and 2 by what the program takes.
pub fn taken_refusal(p: Plan) -> Result<(), Refusal>
    ensures { found result ≡ first_from 0 (taken_rows p) }
{
    refuse::when(form::TAKEN_SLICES < p.slices, Refusal::Length)?;
    refuse::when(form::TAKEN_VERTICES < p.vc1, Refusal::Outline)?;
    refuse::when(form::TAKEN_VERTICES < p.vc2, Refusal::Outline)
}

// Number 13 by the counts, then 1 and 2.
pub fn count_refusal(bytes: usize, p: Plan, v: Version) -> Result<(), Refusal>
    requires { Sized v p }
    ensures { found result ≡ first_from 0 (count_rows bytes (length_of v p) p) }
{
    refuse::when(bytes != length_of(p, v), Refusal::Size)?;
    taken_refusal(p)
}

// Number 9: a list of one of these lengths is too short for what is read.
pub fn lengths_refusal(p: Plan, l: Lengths) -> Result<(), Refusal>
    requires { Counts p }
    ensures { found result ≡ first_from 0 (room_rows p l) }
{
    refuse::when(l.outline1 < 3 * p.vc1, Refusal::Room)?;
    refuse::when(l.outline2 < 3 * p.vc2, Refusal::Room)?;
    slice::faults::room_refusal(p.slices, l.slice_at, l.slice)?;
    slice::edition::room_refusal(p.slices, l.slice_edition)
}

// The same of the lent lists.
pub fn room_refusal(p: Plan, room: &Room) -> Result<(), Refusal>
    requires { Counts p }
    ensures { found result ≡ first_from 0 (room_rows p (lengths_of (lent room.now))) }
{
    let l = Lengths {
        outline1: room.outline1.len(),
        outline2: room.outline2.len(),
        slice_at: room.slice_at.len(),
        slice: room.slice.len(),
        slice_edition: room.slice_edition.len(),
    };
    lengths_refusal(p, l)
}
