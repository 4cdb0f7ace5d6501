#![tactic(auto)]
// Slices gathered from their places: laid out anew within a list, or shown in lent room. Codes are four words to a place, numbers six, editions one.
ghost use Rattle.std.specs.Prelude.{◌≡◌, [], ◌++◌, map, ◌*◌, length, drop};
ghost use Rattle.basis.specs.Number.{+0};
ghost use Rattle.basis.specs.Room.{room_of};
ghost use Rattle.store.specs.Marks.{most_places, handle_of, filled};
ghost use Rattle.store_gather.specs.Gather.{GatherFits, blocks_at, LayFits, ShowFits, ShowHandles};

use basis::room;
use store::copies;
use store::marks::{MOST_PLACES, handle_of, place_of};

// How many codes and how many numbers the most places have.
const MOST_CODES: usize = 4 * MOST_PLACES;

const MOST_NUMBERS: usize = 6 * MOST_PLACES;

// What stands at the places that `marks` name, to the front of `dst`.
fn gather<const WIDTH: usize, T: Copy>(src: &[T], marks: &[usize], dst: &mut [T])
    requires { GatherFits WIDTH src.now marks.now dst.old }
    ensures { dst.new ≡ blocks_at WIDTH src.now marks.now ++ drop (WIDTH * length marks.now) dst.old }
{
    for (k, m) in marks.iter().enumerate() {
        copies::copy(src, WIDTH * place_of(*m), dst, WIDTH * k, WIDTH);
    }
}

// Within one list, by way of `room`: what stands at those places, in front, and `zero` behind it.
fn lay<const WIDTH: usize, T: Copy>(list: &mut [T], marks: &[usize], room: &mut [T], zero: T)
    requires { LayFits WIDTH (length room.old) list.old marks.now }
    ensures { list.new ≡ filled zero (length list.old) (blocks_at WIDTH list.old marks.now) }
{
    gather::<WIDTH, T>(list, marks, room);
    let end = WIDTH * marks.len();
    copies::copy(room, 0, list, 0, end);
    let len = list.len();
    room::fill(list, end, len, zero);
}

// Where nothing is laid: `zero` everywhere.
fn clear<T: Copy>(list: &mut [T], zero: T)
    ensures { list.new ≡ filled zero (length list.old) [] }
{
    let len = list.len();
    room::fill(list, 0, len, zero);
}

// Each function makes the room that it needs, so that no two stand on the stack at once, and none where nothing is laid.
#[tactic(auto, using(crate::proofs::Gathering::laid_none))]
pub fn lay_codes(codes: &mut [usize], marks: &[usize])
    requires { LayFits 4 (4 * most_places) codes.old marks.now }
    ensures { codes.new ≡ filled 0 (length codes.old) (blocks_at 4 codes.old marks.now) }
{
    if marks.is_empty() {
        return clear(codes, 0);
    }
    lay::<4, usize>(codes, marks, &mut [0; MOST_CODES], 0);
}

#[tactic(auto, using(crate::proofs::Gathering::laid_none))]
pub fn lay_numbers(numbers: &mut [f64], marks: &[usize])
    requires { LayFits 6 (6 * most_places) numbers.old marks.now }
    ensures { numbers.new ≡ filled +0 (length numbers.old) (blocks_at 6 numbers.old marks.now) }
{
    if marks.is_empty() {
        return clear(numbers, 0.0);
    }
    lay::<6, f64>(numbers, marks, &mut [0.0; MOST_NUMBERS], 0.0);
}

#[tactic(auto, using(crate::proofs::Gathering::laid_none))]
pub fn lay_editions(editions: &mut [u32], marks: &[usize])
    requires { LayFits 1 most_places editions.old marks.now }
    ensures { editions.new ≡ filled 0 (length editions.old) (blocks_at 1 editions.old marks.now) }
{
    if marks.is_empty() {
        return clear(editions, 0);
    }
    lay::<1, u32>(editions, marks, &mut [0; MOST_PLACES], 0);
}

// To lent room: what stands at those places, and `zero` up to the need.
pub fn show<const WIDTH: usize, T: Copy>(
    src: &[T],
    marks: &[usize],
    dst: &mut [T],
    need: usize,
    zero: T,
)
    requires { ShowFits WIDTH need src.now marks.now dst.old }
    ensures { dst.new ≡ room_of zero WIDTH need (blocks_at WIDTH src.now marks.now) dst.old }
{
    gather::<WIDTH, T>(src, marks, dst);
    room::fill(dst, WIDTH * marks.len(), WIDTH * need, zero);
}

// To lent room: the handles that the marks name, and zeros up to the need.
pub fn show_handles(marks: &[usize], dst: &mut [usize], need: usize)
    requires { ShowHandles need marks.now dst.old }
    ensures { dst.new ≡ room_of 0 1 need (map handle_of marks.now) dst.old }
{
    for (k, m) in marks.iter().enumerate() {
        dst[k] = handle_of(*m);
    }
    room::fill(dst, marks.len(), need, 0);
}
