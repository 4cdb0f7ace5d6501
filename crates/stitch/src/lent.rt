// The lists that are lent to a call: made at its entry and handed on as one.

// The loops' vertices, each loop's end, each chain's slices, where they end, how it ended.
#[derive(Drop)]
pub struct Lent<'a> {
    pub room: &'a mut [f64],
    pub ends: &'a mut [usize],
    pub chain: &'a mut [usize],
    pub chain_ends: &'a mut [usize],
    pub chain_how: &'a mut [usize],
}
