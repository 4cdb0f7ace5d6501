// What a host lends to be read. Lists that are written stay parameters of their own: of a struct of `&mut` each contract would have to say that every field still is the same reference.

// A store: of each place a mark, four codes, six numbers and an edition.
#[derive(Clone, Copy)]
pub struct Store<'a> {
    pub held: &'a [usize],
    pub at: &'a [usize],
    pub shape: &'a [f64],
    pub edition: &'a [u32],
}

// A slice: four codes, six numbers and an edition.
#[derive(Clone, Copy)]
pub struct NewSlice<'a> {
    pub code: &'a [usize],
    pub number: &'a [f64],
    pub edition: u32,
}
