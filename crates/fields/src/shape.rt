// The fields of a shape, and rows of one shape. A shape is a list of widths.
ghost use Rattle.std.specs.Prelude.{◌≡◌, length, drop};
ghost use Rattle.std.proofs.lemmas.List.Edits.{sets};
ghost use Rattle.fields.specs.Fields.{pack, unpack, rows};
ghost use Rattle.fields.specs.Ready.{ShapeAt, ShapeRead, ShapeFrom, RowsAt, RowsFrom};

use crate::field;

// Lists the values of a shape's fields, which stand from byte `at` on, from `to` on.
pub fn read_shape(bytes: &[u8], at: usize, widths: &[usize], values: &mut [usize], to: usize)
    requires { ShapeAt (length bytes.now) at widths.now (length values.old) to }
    ensures { ShapeRead bytes.now at widths.now values.old values.new to }
{
    let mut p = at;
    for (i, width) in widths.iter().enumerate() {
        values[to + i] = field::get(bytes, p, *width);
        p += *width;
    }
}

// The same of `count` rows of a shape, each of `stride` bytes.
pub fn read_rows(
    bytes: &[u8],
    at: usize,
    widths: &[usize],
    stride: usize,
    count: usize,
    values: &mut [usize],
    to: usize,
)
    requires { RowsAt (length bytes.now) at widths.now stride count (length values.old) to }
    ensures { values.new ≡ sets values.old to (unpack (rows count widths.now) (drop at bytes.now)) }
{
    for row in 0..count {
        read_shape(
            bytes,
            at + row * stride,
            widths,
            values,
            to + row * widths.len(),
        );
    }
}

// Writes a shape's fields, whose values stand from `from` on, from byte `at` on.
pub fn write_shape(values: &[usize], from: usize, widths: &[usize], bytes: &mut [u8], at: usize)
    requires { ShapeFrom (length values.now) from widths.now (length bytes.old) at }
    ensures { bytes.new ≡ sets bytes.old at (pack widths.now (drop from values.now)) }
{
    let mut p = at;
    for (i, width) in widths.iter().enumerate() {
        field::put(bytes, p, *width, values[from + i]);
        p += *width;
    }
}

// The same of `count` rows of a shape, each of `stride` bytes.
pub fn write_rows(
    values: &[usize],
    from: usize,
    widths: &[usize],
    stride: usize,
    count: usize,
    bytes: &mut [u8],
    at: usize,
)
    requires { RowsFrom (length values.now) from widths.now stride count (length bytes.old) at }
    ensures { bytes.new ≡ sets bytes.old at (pack (rows count widths.now) (drop from values.now)) }
{
    for row in 0..count {
        write_shape(
            values,
            from + row * widths.len(),
            widths,
            bytes,
            at + row * stride,
        );
    }
}
