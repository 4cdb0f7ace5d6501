#![tactic(auto, using(basis::specs::Choice::cases), unfolding(fields::specs::Fields::size, crate::specs::Form::form_for))]
// The versions of the record, as tables of widths.
ghost use Rattle.std.specs.Prelude.{◌≡◌};
ghost use Rattle.fields.specs.Fields.{size};
ghost use Rattle.record_form.specs.Form.{form_for, head_shape, slice_shape};
ghost use Rattle.record_form.specs.Ready.{FormOk};

use slice::data::{CODE_WIDTH, SHAPE_WIDTH};

// A version is a table, and no enum of two: what is proved of writing and reading holds of any widths (`FormOk`).
// Its number, the bytes of the second tolerance and of an edition (0 where it has none), and the bytes that a record has at most.
#[derive(Clone, Copy)]
pub struct Version {
    pub number: usize,
    pub second: usize,
    pub edition: usize,
    pub most: usize,
}

pub const RECORD1_MOST: usize = 4610;

pub const RECORD2_MOST: usize = 4738;

// One tolerance for both axes, and no editions.
const VERSION1: Version = Version {
    number: 1,
    second: 0,
    edition: 0,
    most: RECORD1_MOST,
};

// A tolerance for each axis, and 32-bit editions.
const VERSION2: Version = Version {
    number: 2,
    second: 8,
    edition: 4,
    most: RECORD2_MOST,
};

// The table of a version's number; of one that is unknown, version 1's.
pub fn version_for(number: usize) -> Version
    ensures { result ≡ form_for number }
{
    if number == 2 { VERSION2 } else { VERSION1 }
}

// The mark's three bytes, the version, two vertex counts, the selector, two tolerances, two editions, three starts, the slice count.
pub fn head_widths(v: Version) -> [usize; 15]
    ensures { result ≡ head_shape v }
{
    let second = v.second;
    let edition = v.edition;
    [1, 1, 1, 2, 2, 2, 1, 8, second, edition, edition, 2, 2, 2, 2]
}

pub fn head_bytes(v: Version) -> usize
    requires { FormOk v }
    ensures { result ≡ size (head_shape v) }
{
    26 + v.second + 2 * v.edition
}

// Source, inverted, start, offset; start x, y, bulge, end bulge, end x, y; the edition.
pub fn slice_widths(v: Version) -> [usize; 11]
    ensures { result ≡ slice_shape v }
{
    [1, 1, 2, 2, 8, 8, 8, 8, 8, 8, v.edition]
}

pub fn slice_bytes(v: Version) -> usize
    requires { FormOk v }
    ensures { result ≡ size (slice_shape v) }
{
    54 + v.edition
}

// X, y, bulge.
pub const VERTEX: [usize; 3] = [8, 8, 8];

pub const VERTEX_BYTES: usize = 24;

// The most that the reader and the writer take (K1: "The program takes at most .."): vertices of an outline, slices.
pub const TAKEN_VERTICES: usize = 64;

pub const TAKEN_SLICES: usize = 28;

// The fields of a slice: codes and shape; with them the edition.
pub const COMMON_WIDTH: usize = CODE_WIDTH + SHAPE_WIDTH;

pub const ENTRY_WIDTH: usize = COMMON_WIDTH + 1;

// Room for the numbers of such an outline, and for the codes and the shapes of so many slices.
pub const OUTLINE: usize = 3 * TAKEN_VERTICES;

pub const CODES: usize = CODE_WIDTH * TAKEN_SLICES;

pub const SHAPES: usize = SHAPE_WIDTH * TAKEN_SLICES;

// Room for the values of such a record.
pub const VALUES: usize = 1024;
