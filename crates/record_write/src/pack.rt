// A record's bytes, from the values of its fields.
ghost use Rattle.std.specs.Prelude.{◌≡◌, ◌++◌, length};
ghost use Rattle.std.proofs.lemmas.List.Edits.{sets};
ghost use Rattle.fields.specs.Fields.{pack, rows};
ghost use Rattle.record_form.specs.Form.{vertex_shape};
ghost use Rattle.record_write.specs.Ready.{PackFit};

use fields::shape;
use record_form::form;

// Writes a record from the front on: a head of `start` bytes, the vertices, and slices of `stride` bytes each. Its parameters stay nine: it promises this of any tables (`PackFit`),
// and not of those of a version alone.
pub fn pack_form(
    start: usize,
    stride: usize,
    widths: &[usize],
    head: &[usize],
    entry: &[usize],
    values: &[usize],
    vertices: usize,
    slices: usize,
    bytes: &mut [u8],
)
    requires { PackFit start stride widths.now (length head.now) entry.now (length values.now) vertices slices (length bytes.old) }
    ensures { bytes.new ≡ sets bytes.old 0 (pack widths.now head.now ++ pack (rows vertices vertex_shape ++ rows slices entry.now) values.now) }
{
    let vertex = form::VERTEX;
    let p = start + vertices * form::VERTEX_BYTES;
    let q = vertices * 3;
    shape::write_shape(head, 0, widths, bytes, 0);
    shape::write_rows(
        values,
        0,
        &vertex,
        form::VERTEX_BYTES,
        vertices,
        bytes,
        start,
    );
    shape::write_rows(values, q, entry, stride, slices, bytes, p);
}
