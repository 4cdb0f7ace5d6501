// The numbers of a call, beside its lists: made at its entry and handed on as one.
ghost use Rattle.std.specs.Prelude.{◌≡◌};
ghost use Rattle.prune.specs.Prune.{need_of};
ghost use Rattle.prune.specs.Ready.{Few};

// The mode and the yes/no code of opposing directions, the outlines' vertex counts, how many candidates each has, how many overlaps there are.
// The first two stay numbers: the entries of `mask` fill them in as C hands them over.
#[derive(Clone, Copy)]
pub struct Call {
    pub mode: u32,
    pub opposing: u32,
    pub vc1: usize,
    pub vc2: usize,
    pub count1: usize,
    pub count2: usize,
    pub laps: usize,
}

// How many slices there must be room for.
pub fn need_of(c: Call) -> usize
    requires { Few c }
    ensures { result ≡ need_of c }
{
    c.count1 + c.count2 + 2 * c.laps
}
