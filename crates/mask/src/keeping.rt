// Slices kept between runs, for two parties.
ghost use Rattle.store.specs.Slice.{slice_of};
ghost use Rattle.store.specs.Lists.{lists};
ghost use Rattle.store_write.specs.Calls.{rooms};
ghost use Rattle.store_entries.specs.Answers.{handle_answer, done_answer};
ghost use Rattle.store_entries.specs.StoreEntry.{to_put, to_release, to_compact, called, StoreLeft, ListLeft};

use basis::answer::CountAnswer;
use store_entries::answer::{DoneAnswer, HandleAnswer};

// A slice of a party is put into the store. It gets the lowest handle, from 0, that no live slice of the party has.
pub fn mask_store_put(
    held: &mut [usize],
    slice_at: &mut [usize],
    slice: &mut [f64],
    slice_edition: &mut [u32],
    party: u32,
    put_at: &[usize],
    put: &[f64],
    put_edition: u32,
) -> HandleAnswer
    ensures { StoreLeft handle_answer (lists held.old slice_at.old slice.old slice_edition.old) (called party (to_put (slice_of put_at.now put.now put_edition))) result (lists held.new slice_at.new slice.new slice_edition.new) }
{
    store_entries::storing::put(
        held,
        slice_at,
        slice,
        slice_edition,
        party,
        put_at,
        put,
        put_edition,
    )
}

// The party's slice with a handle is released.
pub fn mask_store_release(
    held: &mut [usize],
    slice_at: &[usize],
    slice: &[f64],
    slice_edition: &[u32],
    party: u32,
    handle: usize,
) -> DoneAnswer
    ensures { StoreLeft done_answer (lists held.old slice_at.now slice.now slice_edition.now) (called party (to_release handle)) result (lists held.new slice_at.now slice.now slice_edition.now) }
{
    store_entries::storing::release(held, slice_at, slice, slice_edition, party, handle)
}

// The party's live slices in the order put: handles, codes, numbers and editions.
pub fn mask_store_list(
    held: &[usize],
    slice_at: &[usize],
    slice: &[f64],
    slice_edition: &[u32],
    party: u32,
    handles: &mut [usize],
    list_at: &mut [usize],
    list: &mut [f64],
    list_edition: &mut [u32],
) -> CountAnswer
    ensures { ListLeft (lists held.now slice_at.now slice.now slice_edition.now) party (rooms handles.old list_at.old list.old list_edition.old) result (rooms handles.new list_at.new list.new list_edition.new) }
{
    store_entries::storing::list(
        held,
        slice_at,
        slice,
        slice_edition,
        party,
        handles,
        list_at,
        list,
        list_edition,
    )
}

// The party's live slices go to its first places, in the order put, each with its handle.
pub fn mask_store_compact(
    held: &mut [usize],
    slice_at: &mut [usize],
    slice: &mut [f64],
    slice_edition: &mut [u32],
    party: u32,
) -> DoneAnswer
    ensures { StoreLeft done_answer (lists held.old slice_at.old slice.old slice_edition.old) (called party to_compact) result (lists held.new slice_at.new slice.new slice_edition.new) }
{
    store_entries::storing::compact(held, slice_at, slice, slice_edition, party)
}
