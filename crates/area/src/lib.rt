#![tactic(auto)]
// Document 01, the area pass: one area per loop; the loops that stay, listed by number.
ghost use Rattle.std.specs.Prelude.{◌≡◌};
ghost use Rattle.area.specs.Area.{is_kept, Comparable, Roomy, Kept};

use basis::number;

// A loop stays: the absolute value of its area is not below the limit. Neither is a NaN, so that is: at least the limit.
fn is_kept(area: f64, limit: f64) -> bool
    requires { Comparable limit area }
    ensures { result ≡ is_kept limit area }
{
    let size = number::magnitude(area);
    limit <= size
}

// Writes the numbers of the loops that stay, in order, then 0 up to one entry per loop, and says how many there are. Each number is written behind those that stay, and
// the next goes over it where its loop does not; so no branch here depends on which loops stay. Each place is set to 0 on the way, so there is no second pass.
pub fn write_kept(areas: &[f64], limit: f64, kept: &mut [usize]) -> usize
    requires { Roomy areas.now limit kept.old }
    ensures { Kept areas.now limit kept.old result kept.new }
{
    let mut n = 0;
    for i in 0..areas.len() {
        kept[i] = 0;
        kept[n] = i;
        n += usize::from(is_kept(areas[i], limit));
    }
    if n < areas.len() {
        kept[n] = 0;
    }
    n
}
