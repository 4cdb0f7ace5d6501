// The stitch over lists that have been looked at: what it writes into the lent room and what it reports.
ghost use Rattle.stitch_run.specs.Stitch.{given_of};
ghost use Rattle.stitch.specs.Lent.{lists_of, SameMemory, RestFit, RestCleared, StitchFit, Few, Sized, Tabled, Written};

use basis::room;
use basis::sizes::MOST_SLICES;
use stitch::lent::Lent;
use stitch::write::Stitched;
use stitch::{turn, write};
use stitch_chain::table::Table;
use stitch_links::hang;
use stitch_run::plan::Slices;
use stitch_slices::slices;
use stitch_tally::tally::Tally;

// Sets each list to zero behind what was written, up to its need.
fn clear_rest(x: &mut Lent, w: Tally, need: usize, count: usize)
    requires { RestFit (lists_of x.old) w need count }
    ensures same { SameMemory x.old x.new }
    ensures cleared { RestCleared (lists_of x.old) w need count (lists_of x.new) }
{
    room::fill(x.room, 3 * w.done, 3 * need, 0.0);
    room::fill(x.ends, w.loops, count, 0);
    room::fill(x.chain, w.rounds, count, 0);
    room::fill(x.chain_ends, w.chains, count, 0);
    room::fill(x.chain_how, w.chains, count, 0);
}

// The stitch with a table of start points, marks, and links for `held` lists, all long enough. No slice has been visited, and the lists hold none.
fn write_with(
    points: &mut [f64],
    visited: &mut [bool],
    link: &mut [usize],
    held: usize,
    s: &Slices,
    x: &mut Lent,
) -> Stitched
    requires { Tabled (given_of s.now) points.old visited.old link.old held (lists_of x.old) }
    ensures same { SameMemory x.old x.new }
    ensures written { Written (given_of s.now) (lists_of x.old) result (lists_of x.new) }
{
    slices::fill_points(points, s);
    let layout = hang::hang(points, link, s.plan, held);
    let mut t = Table {
        points,
        visited,
        link,
        layout,
    };
    let w = turn::take_turns(&mut t, x, s);
    let need = write::room_need(s.slice_at, s.plan.slices);
    clear_rest(x, w, need, s.plan.slices);
    Stitched {
        rounds: w.rounds,
        loops: w.loops,
        chains: w.chains,
    }
}

// The stitch with working lists for up to MOST slices (a length as `2 * MOST` cannot be written, so each is a parameter): two numbers a slice for their start points, and links for so many lists of cells, a link for each list and each slice, and for each slice the last of its run.
fn write_in<const MOST: usize, const NUMBERS: usize, const LISTS: usize, const LINKS: usize>(
    s: &Slices,
    x: &mut Lent,
) -> Stitched
    requires sized { Sized MOST NUMBERS LISTS LINKS }
    requires few { Few MOST (given_of s.now) (lists_of x.old) }
    ensures same { SameMemory x.old x.new }
    ensures written { Written (given_of s.now) (lists_of x.old) result (lists_of x.new) }
{
    let mut points = [0.0; NUMBERS];
    let mut visited = [false; MOST];
    let mut link = [LINKS; LINKS];
    write_with(
        &mut points,
        &mut visited[..s.plan.slices],
        &mut link,
        LISTS,
        s,
        x,
    )
}

// Up to so many slices are scanned, on no lists: that is as fast as lists of cells, and takes less room.
const SCANNED: usize = 4;

const SCANNED_NUMBERS: usize = 8;

// Up to so many slices have small working lists, which cost little to set up: as many lists of cells.
const FEW: usize = 64;

const FEW_NUMBERS: usize = 128;

const FEW_LINKS: usize = 192;

// The same for up to 1,792 slices.
const MOST_NUMBERS: usize = 3584;

const MOST_LISTS: usize = 2048;

const MOST_LINKS: usize = 5632;

// Stitches the slices: the loops' vertices into `room`, each loop's end, each chain's slices, where they end and how it ended.
pub fn write_stitch(s: &Slices, x: &mut Lent) -> Stitched
    requires { StitchFit (given_of s.now) (lists_of x.old) }
    ensures same { SameMemory x.old x.new }
    ensures written { Written (given_of s.now) (lists_of x.old) result (lists_of x.new) }
{
    if s.plan.slices <= SCANNED {
        return write_in::<SCANNED, SCANNED_NUMBERS, 0, SCANNED>(s, x);
    }
    if s.plan.slices <= FEW {
        return write_in::<FEW, FEW_NUMBERS, FEW, FEW_LINKS>(s, x);
    }
    write_in::<MOST_SLICES, MOST_NUMBERS, MOST_LISTS, MOST_LINKS>(s, x)
}
