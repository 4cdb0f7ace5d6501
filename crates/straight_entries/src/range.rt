// Number 18: whether coordinates are in range.
ghost use Rattle.std.specs.Prelude.{◌≡◌};
ghost use Rattle.straight_entries.specs.Range.{in_reach, all_in_reach};

// A coordinate of a vertex.
pub fn near_vertex(z: i64) -> bool
    ensures { result ≡ in_reach 400000000 z }
{
    -400_000_000 <= z && z <= 400_000_000
}

// A doubled coordinate of a probe. One line of its own: with the limit as a parameter, the check would ask whether its negation fits.
pub(crate) fn near_probe(z: i64) -> bool
    ensures { result ≡ in_reach 800000000 z }
{
    -800_000_000 <= z && z <= 800_000_000
}

// Every coordinate of the list is one of a vertex. All are looked at, with no branch, so that the loop stays fast.
#[tactic(auto, unfolding(basis::specs::All::all_of))]
pub(crate) fn all_near(l: &[i64]) -> bool
    ensures { result ≡ all_in_reach l.now }
{
    let mut ok = true;
    for z in l {
        ok = ok & near_vertex(*z);
    }
    ok
}
