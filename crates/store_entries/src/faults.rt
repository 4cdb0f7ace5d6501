#![tactic(auto, unfolding(basis::specs::Refuse::first_of, basis::specs::Refuse::first_from, basis::specs::Refuse::or_else, crate::specs::StoreEntry::call_refusal, crate::specs::StoreEntry::call_rows, crate::specs::StoreEntry::own_rows))]
// The refusals of the store's entries, part by part of their tables.
ghost use Rattle.std.specs.Prelude.{◌≡◌};
ghost use Rattle.basis.specs.Refuse.{first_from};
ghost use Rattle.basis.specs.Refusals.{found};
ghost use Rattle.store_write.specs.Lent.{lists_of, slice_in};
ghost use Rattle.store_entries.specs.StoreRows.{slice_rows, room_rows, party_rows};
ghost use Rattle.store_entries.specs.StoreEntry.{to_put, to_list, to_compact, called, lists_rows, call_refusal};

use basis::refuse::Refusal;
use basis::{number, refuse};
use store_write::lent::{NewSlice, Store};

// How many places the store has.
const PLACES: usize = 1792;

// How many of them are a party's, and how many codes and numbers these take.
const SHARE: usize = 896;

const CODES: usize = 3584;

const NUMBERS: usize = 5376;

// Number 1: the four lists are not those of as many places.
fn store_refusal(store: Store) -> Result<(), Refusal>
    ensures { found result ≡ first_from 0 (lists_rows (lists_of store.entry)) }
{
    refuse::when(
        refuse::bad_length(store.held.len(), 1, PLACES),
        Refusal::Length,
    )?;
    refuse::when(
        refuse::bad_length(store.at.len(), 4, PLACES),
        Refusal::Length,
    )?;
    refuse::when(
        refuse::bad_length(store.shape.len(), 6, PLACES),
        Refusal::Length,
    )?;
    refuse::when(
        refuse::bad_length(store.edition.len(), 1, PLACES),
        Refusal::Length,
    )
}

// Numbers 1, 3 and 5 of the slice that is put.
fn slice_refusal(slice: NewSlice) -> Result<(), Refusal>
    ensures { found result ≡ first_from 0 (slice_rows slice.entry.code.now slice.entry.number.now) }
{
    slice::faults::list_refusal(slice.code.len(), slice.number.len(), 1)?;
    slice::faults::code_refusal(slice.code)?;
    refuse::when(!number::all_in_range(slice.number), Refusal::Number)
}

// Number 9: a list lent for the answer is too short for a slice in every place of a party.
fn room_refusal(handles: usize, at: usize, shape: usize, edition: usize) -> Result<(), Refusal>
    ensures { found result ≡ first_from 0 (room_rows 896 handles at shape edition) }
{
    refuse::when(handles < SHARE, Refusal::Room)?;
    refuse::when(at < CODES, Refusal::Room)?;
    refuse::when(shape < NUMBERS, Refusal::Room)?;
    refuse::when(edition < SHARE, Refusal::Room)
}

// Number 22: the party is neither 0 nor 1.
fn party_refusal(party: u32) -> Result<(), Refusal>
    ensures { found result ≡ first_from 0 (party_rows party) }
{
    refuse::when(1 < party, Refusal::Party)
}

pub(crate) fn put_refusal(store: Store, party: u32, slice: NewSlice) -> Result<(), Refusal>
    ensures { found result ≡ call_refusal (lists_of store.entry) (called party (to_put (slice_in slice.entry))) }
{
    store_refusal(store)?;
    slice_refusal(slice)?;
    party_refusal(party)
}

// The same for a release and a compaction, which have no rows of their own.
pub(crate) fn part_refusal(store: Store, party: u32) -> Result<(), Refusal>
    ensures { found result ≡ call_refusal (lists_of store.entry) (called party to_compact) }
{
    store_refusal(store)?;
    party_refusal(party)
}

pub(crate) fn list_refusal(
    store: Store,
    party: u32,
    handles: usize,
    at: usize,
    shape: usize,
    edition: usize,
) -> Result<(), Refusal>
    ensures { found result ≡ call_refusal (lists_of store.entry) (called party (to_list handles at shape edition)) }
{
    store_refusal(store)?;
    room_refusal(handles, at, shape, edition)?;
    party_refusal(party)
}
