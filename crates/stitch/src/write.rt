// What a stitch reports, and the room that it needs.
ghost use Rattle.std.specs.Prelude.{◌≡◌};
ghost use Rattle.stitch_run.specs.Stitch.{need_of};
ghost use Rattle.stitch.specs.Lent.{NeedFit};

use slice::data::CODE_WIDTH;

// What is reported: the rounds taken, the loops returned, the chains walked.
#[derive(Clone, Copy)]
pub struct Stitched {
    pub rounds: usize,
    pub loops: usize,
    pub chains: usize,
}

// The room that a stitch needs, in vertices: one more than the sum of (offset + 1), and none where there are no slices.
pub fn room_need(slice_at: &[usize], count: usize) -> usize
    requires { NeedFit slice_at.now count }
    ensures { result ≡ need_of slice_at.now count }
{
    if count == 0 {
        return 0;
    }
    let mut sum = 1;
    for i in 0..count {
        sum += slice_at[CODE_WIDTH * i + 3] + 1;
    }
    sum
}
