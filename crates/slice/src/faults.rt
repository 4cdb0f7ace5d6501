#![tactic(auto, unfolding(basis::specs::Refuse::first_from, basis::specs::Refuse::or_else, basis::specs::Refuse::source_fault, crate::specs::Faults::source_known, crate::specs::Faults::start_inside, crate::specs::Faults::offset_inside))]
// What is refused of slices: the faults of one, and the parts of a table over lists of them.
ghost use Rattle.std.specs.Prelude.{◌≡◌};
ghost use Rattle.basis.specs.Refuse.{first_from, count_for};
ghost use Rattle.basis.specs.Refusals.{found};
ghost use Rattle.slice.specs.Faults.{source_known, start_inside, offset_inside, Tests, each_slice, sources_known, starts_inside, offsets_inside, list_rows, code_rows, index_rows, room_rows};
ghost use Rattle.slice.specs.Ready.{Countable};

use crate::data::{CODE_WIDTH, Codes, SHAPE_WIDTH};
use crate::read;
use basis::refuse::Refusal;
use basis::{items, refuse};

// Its source is 1 or 2.
pub fn source_known(c: Codes) -> bool
    ensures { result ≡ source_known c }
{
    c.source == 1 || c.source == 2
}

// The vertex count of a source.
pub fn count_for(vc1: usize, vc2: usize, source: usize) -> usize
    ensures { result ≡ count_for vc1 vc2 source }
{
    if source == 1 { vc1 } else { vc2 }
}

// Its start is below the vertex count of its own outline.
pub fn start_inside(vc1: usize, vc2: usize, c: Codes) -> bool
    ensures { result ≡ start_inside vc1 vc2 c }
{
    c.start < count_for(vc1, vc2, c.source)
}

// Its offset is at most that count.
pub fn offset_inside(vc1: usize, vc2: usize, c: Codes) -> bool
    ensures { result ≡ offset_inside vc1 vc2 c }
{
    c.offset <= count_for(vc1, vc2, c.source)
}

// Every slice in the list passes the test.
fn all_slices<F: Fn(Codes) -> bool>(slice_at: &[usize], test: F) -> bool
    requires { F.IsAlwaysCallable test }
    ensures { (q : _) → Tests (F.post test) q → result ≡ each_slice q slice_at.now }
{
    let mut ok = true;
    for i in 0..slice_at.len() / CODE_WIDTH {
        ok = ok & test(read::codes_at(slice_at, i));
    }
    ok
}

// Every slice's source is 1 or 2.
fn sources_known(slice_at: &[usize]) -> bool
    ensures { result ≡ sources_known slice_at.now }
{
    all_slices(slice_at, |c| source_known(c))
}

// Every slice's start is below the vertex count of its own outline.
fn starts_inside(vc1: usize, vc2: usize, slice_at: &[usize]) -> bool
    ensures { result ≡ starts_inside vc1 vc2 slice_at.now }
{
    all_slices(slice_at, |c| start_inside(vc1, vc2, c))
}

// Every slice's offset is at most that count.
fn offsets_inside(vc1: usize, vc2: usize, slice_at: &[usize]) -> bool
    ensures { result ≡ offsets_inside vc1 vc2 slice_at.now }
{
    all_slices(slice_at, |c| offset_inside(vc1, vc2, c))
}

// Number 1: lists of these lengths are not those of `count` slices.
pub fn list_refusal(at: usize, shape: usize, count: usize) -> Result<(), Refusal>
    ensures { found result ≡ first_from 0 (list_rows at shape count) }
{
    refuse::when(refuse::bad_length(at, CODE_WIDTH, count), Refusal::Length)?;
    refuse::when(
        refuse::bad_length(shape, SHAPE_WIDTH, count),
        Refusal::Length,
    )
}

// Number 3.
pub fn code_refusal(slice_at: &[usize]) -> Result<(), Refusal>
    ensures { found result ≡ first_from 0 (code_rows slice_at.now) }
{
    refuse::when(!sources_known(slice_at), Refusal::Code)?;
    refuse::when(
        !items::choices_known(slice_at, CODE_WIDTH, 1),
        Refusal::Code,
    )
}

// Numbers 6 and 7.
pub fn index_refusal(vc1: usize, vc2: usize, slice_at: &[usize]) -> Result<(), Refusal>
    ensures { found result ≡ first_from 0 (index_rows vc1 vc2 slice_at.now) }
{
    refuse::when(!starts_inside(vc1, vc2, slice_at), Refusal::Index)?;
    refuse::when(!offsets_inside(vc1, vc2, slice_at), Refusal::Count)
}

// Number 9: room of these lengths is too small for so many slices.
pub fn room_refusal(need: usize, at: usize, shape: usize) -> Result<(), Refusal>
    requires { Countable need }
    ensures { found result ≡ first_from 0 (room_rows need at shape) }
{
    refuse::when(at < CODE_WIDTH * need, Refusal::Room)?;
    refuse::when(shape < SHAPE_WIDTH * need, Refusal::Room)
}
