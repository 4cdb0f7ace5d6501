// What a record keeps: made at the entry and handed on as one.
use stitch_run::plan::Slices;

// A stitch, and the editions of its outlines and slices.
#[derive(Clone, Copy)]
pub struct Kept<'a> {
    pub slices: Slices<'a>,
    pub edition1: u32,
    pub edition2: u32,
    pub slice_edition: &'a [u32],
}
