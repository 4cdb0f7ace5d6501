// What follows the head: both outlines, then the slices.
ghost use Rattle.std.specs.Prelude.{ℕ, ◌+◌, ◌*◌, ◌<◌, ◌≡◌, length, get_or};
ghost use Rattle.std.proofs.lemmas.List.Edits.{sets};
ghost use Rattle.record_form.specs.Form.{entry_width};
ghost use Rattle.record.specs.Record.{body_in, lent, SameRoom, lengths_of};
ghost use Rattle.record_read.specs.Ready.{ColumnFit, DateFit, GatheredBy, ListsFit, ListsFilled, ValuesFit, BodyFit};

use fields::{copy, shape};
use record::head::Room;
use record_form::form;
use record_form::form::Version;
use slice::data::{CODE_WIDTH, SHAPE_WIDTH};
use stitch_run::plan::Plan;

// A value as a code.
fn code(value: usize) -> usize
    ensures { result ≡ value }
{
    value
}

// A value of 32 bits as an edition.
fn edition(value: usize) -> u32
    requires { DateFit value }
    ensures { result ≡ value }
{
    value as u32
}

// Of `count` rows, the `per` values from `offset` on, each as `change` gives it.
fn gather<T: Copy, F: Fn(usize) -> T>(
    rows: &[usize],
    offset: usize,
    per: usize,
    count: usize,
    out: &mut [T],
    change: F,
)
    requires places { ColumnFit (length rows.now) 0 entry_width offset per count (length out.old) }
    requires taken { (i : ℕ) (j : ℕ) → i < count → j < per → F.pre change (get_or rows.now (i * entry_width + offset + j) 0) }
    ensures { GatheredBy (F.post change) rows.now offset per count out.old out.new }
{
    for i in 0..count {
        for j in 0..per {
            out[i * per + j] = change(rows[i * form::ENTRY_WIDTH + offset + j]);
        }
    }
}

// The five lists from the values that follow the head.
fn fill_lists(values: &[usize], p: Plan, room: &mut Room)
    requires { ListsFit p values.now (lengths_of (lent room.old)) }
    ensures same { SameRoom room.old room.new }
    ensures filled { ListsFilled p values.now (lent room.old) (lent room.new) }
{
    let n1 = 3 * p.vc1;
    let n2 = 3 * p.vc2;
    copy::copy_numbers(values, 0, n1, room.outline1, 0);
    copy::copy_numbers(values, n1, n2, room.outline2, 0);
    let rows = &values[n1 + n2..];
    let n = p.slices;
    gather(rows, 0, CODE_WIDTH, n, room.slice_at, code);
    gather(rows, CODE_WIDTH, SHAPE_WIDTH, n, room.slice, copy::number);
    gather(rows, form::COMMON_WIDTH, 1, n, room.slice_edition, edition);
}

// The values of all fields that follow the head, from the front of the lent list on.
fn list_values(bytes: &[u8], v: Version, p: Plan, values: &mut [usize])
    requires { ValuesFit v (length bytes.now) p (length values.old) }
    ensures { values.new ≡ sets values.old 0 (body_in v p bytes.now) }
{
    let head = form::head_bytes(v);
    let stride = form::slice_bytes(v);
    let vertices = p.vc1 + p.vc2;
    let from = head + vertices * form::VERTEX_BYTES;
    let q = vertices * 3;
    shape::read_rows(
        bytes,
        head,
        &form::VERTEX,
        form::VERTEX_BYTES,
        vertices,
        values,
        0,
    );
    shape::read_rows(
        bytes,
        from,
        &form::slice_widths(v),
        stride,
        p.slices,
        values,
        q,
    );
}

// Reads what follows the head of a whole record into the lent lists.
pub fn read_body(bytes: &[u8], v: Version, p: Plan, room: &mut Room)
    requires { BodyFit v (length bytes.now) p (lengths_of (lent room.old)) }
    ensures same { SameRoom room.old room.new }
    ensures filled { ListsFilled p (body_in v p bytes.now) (lent room.old) (lent room.new) }
{
    let mut values = [0usize; form::VALUES];
    let n = 3 * p.vc1 + 3 * p.vc2 + p.slices * form::ENTRY_WIDTH;
    list_values(bytes, v, p, &mut values);
    fill_lists(&values[0..n], p, room);
}
