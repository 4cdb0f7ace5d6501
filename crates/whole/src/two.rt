// A number of up to 128 bits, held as two 64-bit words. They stay two words, and no u128: the answers in C hold them so, and TwoLaws proves what is carried and borrowed between them.
ghost use Rattle.std.specs.Prelude.{◌≡◌, ◌+◌, ◌-◌, nat_lt};
ghost use Rattle.whole.specs.Two.{value, two, carry_of, Roomy, NoMore};

#[derive(Clone, Copy)]
pub struct Two {
    pub high: u64,
    pub low: u64,
}

// The carry of a wrapped sum: the sum is below what was added.
fn carry(sum: u64, added: u64) -> u64
    ensures { result ≡ carry_of sum added }
{
    u64::from(sum < added)
}

// Both added: the low words wrapping, the carry read from a comparison and added to the high word.
pub fn add(a: Two, b: Two) -> Two
    requires { Roomy a b }
    ensures { result ≡ two (value a + value b) }
{
    let low = a.low.wrapping_add(b.low);
    let high = a.high + b.high + carry(low, b.low);
    Two { high, low }
}

// One word.
impl From<u64> for Two {
    ghost from_gives = { λ n t. (t.high ≡ 0) × (t.low ≡ n) };

    fn from(n: u64) -> Two {
        Two { high: 0, low: n }
    }
}

// Whether a is below b.
#[tactic(auto, using(crate::specs::TwoLaws::words))]
pub fn less(a: Two, b: Two) -> bool
    ensures { result ≡ nat_lt (value a) (value b) }
{
    a.high < b.high || a.high == b.high && a.low < b.low
}

// a minus b, which is no larger: the low words wrapping, the borrow read from a comparison and taken from the high word.
#[tactic(auto, using(crate::specs::TwoLaws::words))]
pub fn take(a: Two, b: Two) -> Two
    requires { NoMore a b }
    ensures { result ≡ two (value a - value b) }
{
    let low = a.low.wrapping_sub(b.low);
    if a.low < b.low {
        let high = a.high - b.high - 1;
        return Two { high, low };
    }
    let high = a.high - b.high;
    Two { high, low }
}
