// The four entries over the store.
ghost use Rattle.std.specs.Prelude.{◌≡◌, length};
ghost use Rattle.store.specs.Slice.{slice_of};
ghost use Rattle.store.specs.Lists.{lists};
ghost use Rattle.store_write.specs.Calls.{rooms};
ghost use Rattle.store_entries.specs.Answers.{handle_answer, done_answer};
ghost use Rattle.store_entries.specs.StoreEntry.{to_put, to_release, to_compact, called, StoreLeft, ListLeft};

use crate::answer::{DoneAnswer, HandleAnswer};
use crate::{answer, faults};
use basis::answer::CountAnswer;
use store_party::half;
use store_write::lent::{NewSlice, Store};

// A slice of a party is put. It gets the lowest handle that no live slice of the party has.
pub fn put(
    held: &mut [usize],
    at: &mut [usize],
    shape: &mut [f64],
    edition: &mut [u32],
    party: u32,
    put_at: &[usize],
    put_shape: &[f64],
    put_edition: u32,
) -> HandleAnswer
    ensures { StoreLeft handle_answer (lists held.old at.old shape.old edition.old)
        (called party (to_put (slice_of put_at.now put_shape.now put_edition)))
        result (lists held.new at.new shape.new edition.new) }
{
    let slice = NewSlice {
        code: put_at,
        number: put_shape,
        edition: put_edition,
    };
    let store = Store {
        held,
        at,
        shape,
        edition,
    };
    match faults::put_refusal(store, party, slice) {
        Err(refusal) => answer::handle_refused(refusal.number()),
        Ok(()) => {
            answer::handle_from(half::put(held, at, shape, edition, party as usize, slice))
        }
    }
}

// The party's slice with a handle is released.
pub fn release(
    held: &mut [usize],
    at: &[usize],
    shape: &[f64],
    edition: &[u32],
    party: u32,
    handle: usize,
) -> DoneAnswer
    ensures { StoreLeft done_answer (lists held.old at.now shape.now edition.now)
        (called party (to_release handle)) result (lists held.new at.now shape.now edition.now) }
{
    let store = Store {
        held,
        at,
        shape,
        edition,
    };
    match faults::part_refusal(store, party) {
        Err(refusal) => answer::done_refused(refusal.number()),
        Ok(()) => answer::done_from(half::release(held, party as usize, handle)),
    }
}

// The party's live slices go to its first places.
pub fn compact(
    held: &mut [usize],
    at: &mut [usize],
    shape: &mut [f64],
    edition: &mut [u32],
    party: u32,
) -> DoneAnswer
    ensures { StoreLeft done_answer (lists held.old at.old shape.old edition.old)
        (called party to_compact) result (lists held.new at.new shape.new edition.new) }
{
    let store = Store {
        held,
        at,
        shape,
        edition,
    };
    match faults::part_refusal(store, party) {
        Err(refusal) => answer::done_refused(refusal.number()),
        Ok(()) => {
            half::compact(held, at, shape, edition, party as usize);
            answer::done_from(true)
        }
    }
}

// The party's live slices, in the order put.
pub fn list(
    held: &[usize],
    at: &[usize],
    shape: &[f64],
    edition: &[u32],
    party: u32,
    handles: &mut [usize],
    list_at: &mut [usize],
    list_shape: &mut [f64],
    list_edition: &mut [u32],
) -> CountAnswer
    ensures { ListLeft (lists held.now at.now shape.now edition.now) party
        (rooms handles.old list_at.old list_shape.old list_edition.old)
        result (rooms handles.new list_at.new list_shape.new list_edition.new) }
{
    let store = Store {
        held,
        at,
        shape,
        edition,
    };
    match faults::list_refusal(
        store,
        party,
        handles.len(),
        list_at.len(),
        list_shape.len(),
        list_edition.len(),
    ) {
        Err(refusal) => basis::answer::count_refused(refusal.number()),
        Ok(()) => basis::answer::counted_as(half::list(
            store,
            party as usize,
            handles,
            list_at,
            list_shape,
            list_edition,
        )),
    }
}
