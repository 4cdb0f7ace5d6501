// Elements copied from one list to another.
ghost use Rattle.std.specs.Prelude.{◌≡◌, drop};
ghost use Rattle.std.proofs.Math.Seq.{paste};
ghost use Rattle.store.specs.Ready.{CopyFits};

// `count` elements of `src` from `a` on, to `dst` from `b` on.
pub fn copy<T: Copy>(src: &[T], a: usize, dst: &mut [T], b: usize, count: usize)
    requires { CopyFits src.now a dst.old b count }
    ensures { dst.new ≡ paste dst.old b (drop a src.now) count }
{
    dst[b..b + count].copy_from_slice(&src[a..a + count]);
}
