// What a stitch goes by, made before its first chain and handed on as one.
use stitch_layout::layout::Layout;

// The slices' start points, which slices have been visited, and the lists of cells on which the others hang.
#[derive(Drop)]
pub struct Table<'a> {
    pub points: &'a [f64],
    pub visited: &'a mut [bool],
    pub link: &'a mut [usize],
    pub layout: Layout,
}
