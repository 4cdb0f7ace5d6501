#![tactic(auto, using(basis::specs::Choice::cases), unfolding(basis::specs::Refuse::first_from, basis::specs::Refuse::or_else))]
// The writer.
ghost use Rattle.std.specs.Prelude.{◌≡◌, length};
ghost use Rattle.std.proofs.lemmas.List.Edits.{sets};
ghost use Rattle.basis.specs.Refuse.{first_of, first_from};
ghost use Rattle.basis.specs.Refusals.{found};
ghost use Rattle.slice.specs.Editions.{editions};
ghost use Rattle.stitch_run.specs.Stitch.{given_of};
ghost use Rattle.record.specs.Record.{packed, record_of};
ghost use Rattle.record_write.specs.Writer.{axes_fault, handed_rows, held_rows, editions_of, WriteForm, WriteLeft};
ghost use Rattle.record_write.specs.Ready.{Packs, Keeps};
ghost use Rattle.record_form.specs.Ready.{FormOk};

use crate::kept::Kept;
use crate::pack;
use basis::answer::CountAnswer;
use basis::number::Tolerance;
use basis::refuse::Refusal;
use basis::{answer, number, refuse};
use fields::copy;
use record::head;
use record::head::Head;
use record_form::form;
use record_form::form::Version;
use record_values::values;
use slice::edition;
use stitch_faults::faults;

// The version has one tolerance for both axes, and the two tolerances differ, or one is out of range.
fn axes_differ(v: Version, t: Tolerance) -> bool
    ensures { result ≡ axes_fault v t }
{
    if v.second != 0 {
        return false;
    }
    if !number::in_tolerance(t) {
        return true;
    }
    copy::bits(t.x) != copy::bits(t.y)
}

// Number 12, then 1 to 8: what the stitch refuses, and with it what the program does not take. Number 4 also where the version cannot hold both tolerances.
fn handed_refusal(version: usize, v: Version, k: &Kept) -> Result<(), Refusal>
    ensures { found result ≡ first_from 0 (handed_rows version v (given_of k.now.slices) (editions 0 0 k.now.slice_edition.now)) }
{
    let s = &k.slices;
    refuse::when(version != v.number, Refusal::Version)?;
    edition::list_refusal(k.slice_edition.len(), s.plan.slices)?;
    faults::list_refusal(s)?;
    head::taken_refusal(s.plan)?;
    faults::code_refusal(s)?;
    refuse::when(axes_differ(v, s.plan.tolerance), Refusal::Tolerance)?;
    faults::number_refusal(s)?;
    faults::index_refusal(s)
}

// And 14, whether the version keeps the editions or leaves them out.
fn held_refusal(version: usize, v: Version, k: &Kept) -> Result<(), Refusal>
    ensures { found result ≡ first_of (held_rows version v (given_of k.now.slices) (editions_of k.now)) }
{
    handed_refusal(version, v, k)?;
    edition::edition_refusal(k.edition1, k.edition2, k.slices.slice_at, k.slice_edition)
}

// Packs the values of a stitch from the front on.
fn pack_kept(v: Version, h: Head, values: &[usize], bytes: &mut [u8])
    requires { Packs v h (length values.now) (length bytes.old) }
    ensures { bytes.new ≡ sets bytes.old 0 (packed v h values.now) }
{
    let p = h.plan;
    pack::pack_form(
        form::head_bytes(v),
        form::slice_bytes(v),
        &form::head_widths(v),
        &values::head_values(v.number, h),
        &form::slice_widths(v),
        values,
        p.vc1 + p.vc2,
        p.slices,
        bytes,
    );
}

// Writes the record of a stitch that is not refused, where there is room.
fn write_kept(v: Version, k: &Kept, bytes: &mut [u8])
    requires { Keeps v (given_of k.now.slices) (editions_of k.now) (length bytes.old) }
    ensures { bytes.new ≡ sets bytes.old 0 (record_of v (given_of k.now.slices) (editions_of k.now)) }
{
    let p = k.slices.plan;
    let mut values = [0usize; form::VALUES];
    let n = 3 * p.vc1 + 3 * p.vc2 + p.slices * form::ENTRY_WIDTH;
    values::list_values(&k.slices, k.slice_edition, &mut values);
    let head = Head {
        plan: p,
        edition1: k.edition1,
        edition2: k.edition2,
    };
    pack_kept(v, head, &values[0..n], bytes);
}

// Writes the record of a stitch, of a version whose table this is, at the front of the lent bytes.
fn write_form(version: usize, v: Version, k: &Kept, bytes: &mut [u8]) -> CountAnswer
    requires { FormOk v }
    ensures { WriteForm version v (given_of k.now.slices) (editions_of k.now) bytes.old result bytes.new }
{
    if let Err(refusal) = held_refusal(version, v, k) {
        return answer::count_refused(refusal.number());
    }
    let n = head::length_of(k.slices.plan, v);
    if bytes.len() < n {
        return answer::count_refused(Refusal::Room.number());
    }
    write_kept(v, k, bytes);
    answer::counted_as(n)
}

// Writes the record of a stitch, of the version asked for, at the front of the lent bytes.
pub fn write(version: u32, k: &Kept, bytes: &mut [u8]) -> CountAnswer
    ensures { WriteLeft version (given_of k.now.slices) (editions_of k.now) bytes.old result bytes.new }
{
    let number = version as usize;
    write_form(number, form::version_for(number), k, bytes)
}
