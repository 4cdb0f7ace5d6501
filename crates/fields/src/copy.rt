// Values copied, and numbers to and from their bit patterns.
ghost use Rattle.std.specs.Prelude.{◌≡◌, ℕ, map, length, take, drop, slice_get};
ghost use Rattle.std.proofs.lemmas.List.Edits.{sets};
ghost use Rattle.fields.specs.Fields.{num_of, bits_of};
ghost use Rattle.fields.specs.Ready.{CopyAt, CopiedBy, BitsAt, Number};

// The number of a bit pattern; +infinity for a pattern of a NaN.
pub fn number(pattern: usize) -> f64
    ensures { result ≡ num_of pattern }
{
    if pattern % 9223372036854775808 <= 9218868437227405312 {
        return f64::from_bits(pattern as u64);
    }
    f64::from_bits(9218868437227405312)
}

pub fn bits(x: f64) -> usize
    requires { Number x }
    ensures { result ≡ bits_of x }
{
    f64::to_bits(x) as usize
}

// Copies elements, each as `change` gives it.
fn copy_by<T: Copy, U: Copy, F: Fn(T) -> U>(
    source: &[T],
    from: usize,
    count: usize,
    out: &mut [U],
    to: usize,
    change: F,
)
    requires places { CopyAt (length source.now) from count (length out.old) to }
    requires taken { (i : ℕ) (x : T) → slice_get source.now i ≡ Some x → F.pre change x }
    ensures { CopiedBy (F.post change) source.now from count out.old to out.new }
{
    for j in 0..count {
        out[to + j] = change(source[from + j]);
    }
}

pub fn copy(source: &[usize], from: usize, count: usize, out: &mut [usize], to: usize)
    requires { CopyAt (length source.now) from count (length out.old) to }
    ensures { out.new ≡ sets out.old to (take count (drop from source.now)) }
{
    out[to..to + count].copy_from_slice(&source[from..from + count]);
}

pub fn copy_numbers(source: &[usize], from: usize, count: usize, out: &mut [f64], to: usize)
    requires { CopyAt (length source.now) from count (length out.old) to }
    ensures { out.new ≡ sets out.old to (map num_of (take count (drop from source.now))) }
{
    copy_by(source, from, count, out, to, number);
}

pub fn copy_bits(source: &[f64], from: usize, count: usize, out: &mut [usize], to: usize)
    requires { BitsAt source.now from count (length out.old) to }
    ensures { out.new ≡ sets out.old to (map bits_of (take count (drop from source.now))) }
{
    copy_by(source, from, count, out, to, bits);
}
