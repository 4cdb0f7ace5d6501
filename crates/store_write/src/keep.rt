// The calls on a store. Its number of places is that of its marks.
ghost use Rattle.std.specs.Prelude.{◌≡◌, length};
ghost use Rattle.store.specs.Plain.{put, release, compact};
ghost use Rattle.store.specs.Lists.{lists, list_step};
ghost use Rattle.store_write.specs.Calls.{Fit, PutFits, WriteFits, Wrote, Turned, handle_as, ReleaseFits, Released, rooms, ListFits, Listed};
ghost use Rattle.store_write.specs.Lent.{lists_of, slice_in};

use crate::lent::{NewSlice, Store};
use store::marks::Live;
use store::{copies, marks};

// The slice is written at place `t`.
fn write_slice(at: &mut [usize], shape: &mut [f64], edition: &mut [u32], t: usize, slice: NewSlice)
    requires { WriteFits at.old shape.old edition.old t (slice_in slice) }
    ensures { Wrote at.old shape.old edition.old t (slice_in slice.entry) at.new shape.new edition.new }
{
    copies::copy(slice.code, 0, at, 4 * t, 4);
    copies::copy(slice.number, 0, shape, 6 * t, 6);
    edition[t] = slice.edition;
}

// A slice is put, and gets the lowest handle that no live slice has; none where as many slices are live as there are places. No other slice is moved or read.
pub fn put_slice(
    held: &mut [usize],
    at: &mut [usize],
    shape: &mut [f64],
    edition: &mut [u32],
    slice: NewSlice,
) -> Option<usize>
    requires { PutFits (lists held.old at.old shape.old edition.old) (slice_in slice) }
    ensures { Turned handle_as
        (list_step (length held.old) (lists held.old at.old shape.old edition.old) (put (slice_in slice.entry)))
        result (lists held.new at.new shape.new edition.new) }
{
    let mut live = Live::NONE;
    live.find(held);
    let cap = held.len();
    if live.count == cap {
        return None;
    }
    let h = marks::lowest(&live.handles, cap);
    let t = marks::lowest(&live.places, cap);
    live.order[live.count] = marks::mark_at(t, h);
    live.count += 1;
    marks::set_marks(held, live.marks());
    write_slice(at, shape, edition, t, slice);
    Some(h)
}

// The slice with handle `h` is released. Says whether there was one. The slices' own lists are neither read nor written.
pub fn release_slice(held: &mut [usize], h: usize) -> bool
    requires { ReleaseFits held.old }
    ensures { Released held.old h result held.new }
{
    let mut live = Live::NONE;
    live.find(held);
    if held.len() <= h || !live.handles[h] {
        return false;
    }
    marks::set_others(held, live.marks(), h);
    true
}

// The live slices go to the first places, in the order put, each with its handle; zeros stand behind them.
pub fn compact_slices(held: &mut [usize], at: &mut [usize], shape: &mut [f64], edition: &mut [u32])
    requires { Fit (lists held.old at.old shape.old edition.old) }
    ensures { lists held.new at.new shape.new edition.new
        ≡ (list_step (length held.old) (lists held.old at.old shape.old edition.old) compact).left }
{
    let mut live = Live::NONE;
    live.find(held);
    let found = live.marks();
    store_gather::lay_codes(at, found);
    store_gather::lay_numbers(shape, found);
    store_gather::lay_editions(edition, found);
    marks::number_marks(held, found);
}

// The live slices in the order put: handles, codes, numbers and editions, each list with zeros up to its need. Says how many there are.
pub fn list_slices(
    store: Store,
    handles: &mut [usize],
    list_at: &mut [usize],
    list_shape: &mut [f64],
    list_edition: &mut [u32],
) -> usize
    requires { ListFits (lists_of store) (rooms handles.old list_at.old list_shape.old list_edition.old) }
    ensures { Listed (lists_of store.entry)
        (rooms handles.old list_at.old list_shape.old list_edition.old)
        result (rooms handles.new list_at.new list_shape.new list_edition.new) }
{
    let mut live = Live::NONE;
    live.find(store.held);
    let found = live.marks();
    let cap = store.held.len();
    store_gather::show_handles(found, handles, cap);
    store_gather::show::<4, usize>(store.at, found, list_at, cap, 0);
    store_gather::show::<6, f64>(store.shape, found, list_shape, cap, 0.0);
    store_gather::show::<1, u32>(store.edition, found, list_edition, cap, 0);
    live.count
}
