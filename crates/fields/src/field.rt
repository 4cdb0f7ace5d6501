// One field.
ghost use Rattle.std.specs.Prelude.{◌≡◌, ◌+◌, ◌%◌, ◌<◌};
ghost use Rattle.std.proofs.lemmas.List.Edits.{sets};
ghost use Rattle.fields.specs.Fields.{bytes_of};
ghost use Rattle.fields.specs.Ready.{FieldAt, SpaceAt, ByteAt, Value};

pub fn wide(b: u8) -> usize
    ensures { (result ≡ b) × (result < 256) }
{
    usize::from(b)
}

// Where byte i of a field of `width` bytes stands, counted from the lowest: the lowest comes first.
fn byte_at(at: usize, width: usize, i: usize) -> usize
    requires { ByteAt at width i }
    ensures { result ≡ at + i }
{
    at + i
}

// The value of the `width` bytes from `at` on.
// Widths vary from field to field, so no `from_le_bytes` of one type serves.
pub fn get(bytes: &[u8], at: usize, width: usize) -> usize
    requires { FieldAt bytes.now at width }
    ensures { Value bytes.now at width result }
{
    let mut v = 0;
    for i in (0..width).rev() {
        v = wide(bytes[byte_at(at, width, i)]) + 256 * v;
    }
    v
}

fn low(x: usize) -> u8
    ensures { result ≡ x % 256 }
{
    (x % 256) as u8
}

// Writes a value's lowest `width` bytes from `at` on.
pub fn put(bytes: &mut [u8], at: usize, width: usize, value: usize)
    requires { SpaceAt bytes.old at width }
    ensures { bytes.new ≡ sets bytes.old at (bytes_of width value) }
{
    let mut x = value;
    for i in 0..width {
        bytes[at + i] = low(x);
        x = x / 256;
    }
}
