// What is handed to a call: made at its entry and handed on as one.
use basis::number::Tolerance;
use select::class::Starts;

// The outlines' vertex counts, the count of slices, where their classes begin, the selector, the tolerance.
#[derive(Clone, Copy)]
pub struct Plan {
    pub vc1: usize,
    pub vc2: usize,
    pub slices: usize,
    pub starts: Starts,
    pub selector: u32,
    pub tolerance: Tolerance,
}

// The lists of a call with its numbers: both outlines, the slices' codes, the slices' numbers.
#[derive(Clone, Copy)]
pub struct Slices<'a> {
    pub outline1: &'a [f64],
    pub outline2: &'a [f64],
    pub slice_at: &'a [usize],
    pub slice: &'a [f64],
    pub plan: Plan,
}
