// The lists of a call, each outline's together.
use crate::call::Call;

// The candidates of one outline: start and offset of each, its six numbers, the edition it was cut from, and whether it lies inside the other outline.
#[derive(Clone, Copy)]
pub struct Cands<'a> {
    pub at: &'a [usize],
    pub shape: &'a [f64],
    pub edition: &'a [u32],
    pub inside: &'a [u8],
}

// The joined overlaps: the indexes and codes of each, the six numbers of its view, the edition of outline 2.
#[derive(Clone, Copy)]
pub struct Overlaps<'a> {
    pub at: &'a [usize],
    pub shape: &'a [f64],
    pub edition: &'a [u32],
}

// What a call hands in: its numbers, the candidates of outline 1 and of outline 2, the overlaps.
#[derive(Clone, Copy)]
pub struct Handed<'a> {
    pub call: Call,
    pub first: Cands<'a>,
    pub second: Cands<'a>,
    pub laps: Overlaps<'a>,
}
