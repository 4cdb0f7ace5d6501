// The values of a record's fields, from a stitch.
ghost use Rattle.std.specs.Prelude.{◌≡◌, map, length};
ghost use Rattle.std.proofs.lemmas.List.Edits.{sets};
ghost use Rattle.fields.specs.Fields.{bits_of};
ghost use Rattle.slice.specs.Slice.{code_width, shape_width};
ghost use Rattle.record_form.specs.Form.{mix};
ghost use Rattle.record.specs.Record.{lists, head_values, values_of};
ghost use Rattle.record_values.specs.Ready.{Numbers, MixFit, ValuesFit};

use fields::copy;
use record::head::Head;
use record_form::form;
use slice::data::{CODE_WIDTH, SHAPE_WIDTH};
use stitch_run::plan::Slices;

// The values of the head's fields. What a version has no field for is not written.
pub fn head_values(number: usize, h: Head) -> [usize; 15]
    requires { Numbers h.plan.tolerance }
    ensures { result ≡ head_values number h }
{
    let p = h.plan;
    let tolerance = p.tolerance;
    let starts = p.starts;
    let x = copy::bits(tolerance.x);
    let y = copy::bits(tolerance.y);
    [
        80,
        66,
        82,
        number,
        p.vc1,
        p.vc2,
        p.selector as usize,
        x,
        y,
        h.edition1 as usize,
        h.edition2 as usize,
        starts.pline2,
        starts.pline1_overlapping,
        starts.pline2_overlapping,
        p.slices,
    ]
}

fn wide(edition: u32) -> usize
    ensures { result ≡ edition }
{
    edition as usize
}

// Lists of each slice its codes, the patterns of its shape and its edition, from `to` on.
fn mix_slices(s: &Slices, slice_edition: &[u32], values: &mut [usize], to: usize)
    requires { MixFit (length s.now.slice_at.now) s.now.slice.now (length slice_edition.now) s.now.plan.slices (length values.old) to }
    ensures { values.new ≡ sets values.old to (mix code_width shape_width s.now.plan.slices s.now.slice_at.now (map bits_of s.now.slice.now) slice_edition.now) }
{
    for k in 0..s.plan.slices {
        let at = to + k * form::ENTRY_WIDTH;
        copy::copy(s.slice_at, k * CODE_WIDTH, CODE_WIDTH, values, at);
        copy::copy_bits(
            s.slice,
            k * SHAPE_WIDTH,
            SHAPE_WIDTH,
            values,
            at + CODE_WIDTH,
        );
        values[at + form::COMMON_WIDTH] = wide(slice_edition[k]);
    }
}

// Lists the values of the fields that follow the head, from the front on.
pub fn list_values(s: &Slices, slice_edition: &[u32], values: &mut [usize])
    requires { ValuesFit s.now.outline1.now s.now.outline2.now (length s.now.slice_at.now) s.now.slice.now (length slice_edition.now) s.now.plan.slices (length values.old) }
    ensures { values.new ≡ sets values.old 0 (values_of (lists s.now.outline1.now s.now.outline2.now s.now.slice_at.now s.now.slice.now slice_edition.now) s.now.plan.slices) }
{
    let n1 = s.outline1.len();
    let n2 = s.outline2.len();
    copy::copy_bits(s.outline1, 0, n1, values, 0);
    copy::copy_bits(s.outline2, 0, n2, values, n1);
    mix_slices(s, slice_edition, values, n1 + n2);
}
