// The corners of outlines, loops and views.
use crate::print;
use std::io;
use view_entries::input::View;

// The first n vertices of a list of x, y, bulge.
pub(crate) fn list(rt: &impl Print, numbers: &[f64], n: usize) -> io::Result<()> {
    let mut k: usize = 0;
    while k < n {
        if k >= numbers.len() / 3 {
            break;
        }
        let i = 3 * k;
        print::corner(rt, numbers[i], numbers[i + 1])?;
        k += 1;
    }
    print::word(rt, b"\n")
}

// The vertices of a view, up to the first index that has none. Says how many there are.
pub(crate) fn view(rt: &impl Print, outline: &[f64], vc: usize, view: View) -> io::Result<usize> {
    let mut k: usize = 0;
    while k < 1026 {
        let found = mask::viewing::mask_view_vertex(outline, vc, view, k);
        if found.found == 0 {
            break;
        }
        let v = found.vertex;
        print::corner(rt, v.x, v.y)?;
        k += 1;
    }
    Ok(k)
}
