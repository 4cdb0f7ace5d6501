#![tactic(auto, unfolding(basis::specs::Refuse::first_from, basis::specs::Refuse::or_else))]
// The editions of slices, compared with those of their outlines.
ghost use Rattle.std.specs.Prelude.{◌≡◌};
ghost use Rattle.basis.specs.Refuse.{first_from};
ghost use Rattle.basis.specs.Refusals.{found};
ghost use Rattle.slice.specs.Editions.{editions, edition_of, edition_fault, edition_list_rows, edition_rows, edition_room_rows};
ghost use Rattle.slice.specs.Ready.{EditionsThere};

use crate::data::CODE_WIDTH;
use crate::read;
use basis::refuse;
use basis::refuse::Refusal;

// The edition of the outline that a source names.
fn edition_of(edition1: u32, edition2: u32, source: usize) -> u32
    ensures { result ≡ edition_of edition1 edition2 source }
{
    if source == 1 { edition1 } else { edition2 }
}

// Some slice has another edition than its own outline.
fn editions_differ(edition1: u32, edition2: u32, slice_at: &[usize], slice_edition: &[u32]) -> bool
    requires { EditionsThere slice_at.now slice_edition.now }
    ensures { result ≡ edition_fault (editions edition1 edition2 slice_edition.now) slice_at.now }
{
    let mut same = true;
    for i in 0..slice_at.len() / CODE_WIDTH {
        let c = read::codes_at(slice_at, i);
        same = same & (slice_edition[i] == edition_of(edition1, edition2, c.source));
    }
    !same
}

// Number 1: there is not one edition for each slice.
pub fn list_refusal(len: usize, count: usize) -> Result<(), Refusal>
    ensures { found result ≡ first_from 0 (edition_list_rows len count) }
{
    refuse::when(refuse::bad_length(len, 1, count), Refusal::Length)
}

// Number 14.
pub fn edition_refusal(
    edition1: u32,
    edition2: u32,
    slice_at: &[usize],
    slice_edition: &[u32],
) -> Result<(), Refusal>
    requires { EditionsThere slice_at.now slice_edition.now }
    ensures { found result ≡ first_from 0 (edition_rows (editions edition1 edition2 slice_edition.now) slice_at.now) }
{
    let differ = editions_differ(edition1, edition2, slice_at, slice_edition);
    refuse::when(differ, Refusal::Edition)
}

// Number 9: room of this length is too small for the editions of so many slices.
pub fn room_refusal(need: usize, len: usize) -> Result<(), Refusal>
    ensures { found result ≡ first_from 0 (edition_room_rows need len) }
{
    refuse::when(len < need, Refusal::Room)
}
