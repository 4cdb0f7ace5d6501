#![tactic(auto, unfolding(crate::specs::Lower::lesser_of))]
// Of the finds in two cells the lower number counts.
ghost use Rattle.std.specs.Prelude.{◌≡◌};
ghost use Rattle.stitch_cell.specs.Lower.{lesser_of};

pub fn lesser(a: usize, b: usize) -> usize
    ensures { result ≡ lesser_of a b }
{
    a.min(b)
}
