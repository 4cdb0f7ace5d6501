// The calls of one party, on its half of the lists: places 0 to 895 are those of party 0, the others those of party 1.
ghost use Rattle.std.specs.Prelude.{◌≡◌};
ghost use Rattle.store.specs.Plain.{put, compact};
ghost use Rattle.store.specs.Lists.{lists};
ghost use Rattle.store_write.specs.Calls.{Turned, handle_as, rooms};
ghost use Rattle.store_write.specs.Lent.{lists_of, slice_in};
ghost use Rattle.store_party.specs.Parties.{party_step};
ghost use Rattle.store_party.specs.Ready.{Known, Begins, PartFits, PartPutFits, PartMarksFit, PartReleased, PartListFits, PartListed};

use store_write::keep;
use store_write::lent::{NewSlice, Store};

// Where the party's part of a list begins, of which each party has `width` elements.
fn first_of(width: usize, party: usize) -> usize
    requires { Known party }
    ensures { Begins width party result }
{
    if party == 0 { 0 } else { width }
}

// A slice of the party is put.
pub fn put(
    held: &mut [usize],
    at: &mut [usize],
    shape: &mut [f64],
    edition: &mut [u32],
    party: usize,
    slice: NewSlice,
) -> Option<usize>
    requires { PartPutFits (lists held.old at.old shape.old edition.old) party (slice_in slice) }
    ensures { Turned handle_as
        (party_step 896 party (lists held.old at.old shape.old edition.old) (put (slice_in slice.entry)))
        result (lists held.new at.new shape.new edition.new) }
{
    let a = first_of(896, party);
    let b = a + 896;
    let a4 = first_of(3584, party);
    let b4 = a4 + 3584;
    let a6 = first_of(5376, party);
    let b6 = a6 + 5376;
    keep::put_slice(
        &mut held[a..b],
        &mut at[a4..b4],
        &mut shape[a6..b6],
        &mut edition[a..b],
        slice,
    )
}

// The party's slice with a handle is released. Says whether there was one.
pub fn release(held: &mut [usize], party: usize, handle: usize) -> bool
    requires { PartMarksFit held.old party }
    ensures { PartReleased held.old party handle result held.new }
{
    let a = first_of(896, party);
    let b = a + 896;
    keep::release_slice(&mut held[a..b], handle)
}

// The party's live slices go to its first places.
pub fn compact(
    held: &mut [usize],
    at: &mut [usize],
    shape: &mut [f64],
    edition: &mut [u32],
    party: usize,
)
    requires { PartFits (lists held.old at.old shape.old edition.old) party }
    ensures { lists held.new at.new shape.new edition.new
        ≡ (party_step 896 party (lists held.old at.old shape.old edition.old) compact).left }
{
    let a = first_of(896, party);
    let b = a + 896;
    let a4 = first_of(3584, party);
    let b4 = a4 + 3584;
    let a6 = first_of(5376, party);
    let b6 = a6 + 5376;
    keep::compact_slices(
        &mut held[a..b],
        &mut at[a4..b4],
        &mut shape[a6..b6],
        &mut edition[a..b],
    );
}

// The party's live slices, in the order put. Says how many there are.
pub fn list(
    store: Store,
    party: usize,
    handles: &mut [usize],
    list_at: &mut [usize],
    list_shape: &mut [f64],
    list_edition: &mut [u32],
) -> usize
    requires { PartListFits (lists_of store) party (rooms handles.old list_at.old list_shape.old list_edition.old) }
    ensures { PartListed (lists_of store.entry) party
        (rooms handles.old list_at.old list_shape.old list_edition.old)
        result (rooms handles.new list_at.new list_shape.new list_edition.new) }
{
    let a = first_of(896, party);
    let b = a + 896;
    let a4 = first_of(3584, party);
    let b4 = a4 + 3584;
    let a6 = first_of(5376, party);
    let b6 = a6 + 5376;
    keep::list_slices(
        Store {
            held: &store.held[a..b],
            at: &store.at[a4..b4],
            shape: &store.shape[a6..b6],
            edition: &store.edition[a..b],
        },
        handles,
        list_at,
        list_shape,
        list_edition,
    )
}
