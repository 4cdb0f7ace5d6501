// One signed operation in each function, so that callers speak of ℤ and never of bits.
ghost use Rattle.std.specs.Prelude.{◌≡◌, pos, ◌-ℤ◌, unsigned_abs};
ghost use Rattle.whole.specs.Fit.{Fitting, Signed, NotBelow};

// a minus b, which fits.
pub fn minus(a: i64, b: i64) -> i64
    requires { Fitting (a -ℤ b) }
    ensures { result ≡ a -ℤ b }
{
    a - b
}

// x, which is not negative, as an unsigned number.
pub fn unsigned(x: i64) -> u64
    requires { NotBelow x }
    ensures { result ≡ unsigned_abs x }
{
    x as u64
}

// An unsigned number that is small enough, as a signed one.
pub fn signed(n: u64) -> i64
    requires { Signed n }
    ensures { result ≡ pos n }
{
    n as i64
}
