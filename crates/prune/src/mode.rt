#![tactic(auto, unfolding(crate::specs::Prune::wanted_of, crate::specs::Prune::turned_of, crate::specs::Prune::first_part, crate::specs::Prune::second_part, crate::specs::Prune::parts_of))]
// Document 01, "Pruning": the table of modes.
ghost use Rattle.std.specs.Prelude.{◌≡◌};
ghost use Rattle.prune.specs.Prune.{wanted_of, turned_of, first_part, second_part, parts_of};

// The host's answer for a candidate: outside or inside the other outline.
const OUTSIDE: u8 = 0;

const INSIDE: u8 = 1;

// A row of the table: which candidates of each outline stay, and whether opposing directions are wanted.
#[derive(Clone, Copy)]
pub struct Wanted {
    pub keep1: u8,
    pub keep2: u8,
    pub opposing: bool,
}

// How the candidates of one outline become slices: their source, whether they are inverted, and the answer of those that stay.
#[derive(Clone, Copy)]
pub struct Part {
    pub source: usize,
    pub inverted: usize,
    pub keep: u8,
}

// Both outlines' parts.
#[derive(Clone, Copy)]
pub struct Parts {
    pub first: Part,
    pub second: Part,
}

// The row of a mode: 0 Union, 1 Intersection, 2 FirstMinusSecond, 3 SecondMinusFirst.
fn wanted_of(mode: u32) -> Wanted
    ensures { result ≡ wanted_of mode }
{
    let (keep1, keep2, opposing) = match mode {
        0 => (OUTSIDE, OUTSIDE, false),
        1 => (INSIDE, INSIDE, false),
        2 => (OUTSIDE, INSIDE, true),
        _ => (INSIDE, OUTSIDE, true),
    };
    Wanted {
        keep1,
        keep2,
        opposing,
    }
}

// 1 where the wanted direction differs from the outlines' own, else 0.
fn turned(wanted: bool, own: bool) -> usize
    ensures { result ≡ turned_of wanted own }
{
    usize::from(wanted != own)
}

// Outline 1: its slices are inverted where the wanted direction differs.
fn first_part(w: Wanted, opposing: bool) -> Part
    ensures { result ≡ first_part w opposing }
{
    Part {
        source: 1,
        inverted: turned(w.opposing, opposing),
        keep: w.keep1,
    }
}

// Outline 2: its slices are never inverted.
fn second_part(w: Wanted) -> Part
    ensures { result ≡ second_part w }
{
    Part {
        source: 2,
        inverted: 0,
        keep: w.keep2,
    }
}

// How the candidates of both outlines become slices.
pub fn parts_of(mode: u32, opposing: bool) -> Parts
    ensures { result ≡ parts_of mode opposing }
{
    let w = wanted_of(mode);
    Parts {
        first: first_part(w, opposing),
        second: second_part(w),
    }
}
