// A number of two words in decimal, digit by digit.
ghost use Rattle.std.specs.Prelude.{◌≡◌, length};
ghost use Rattle.whole.specs.Two.{value};
ghost use Rattle.text.specs.Decimal.{tenths_of, glyph_of, digits_of, Digit, Begins};

use whole::two::Two;

// A tenth of a number, and the digit that is left.
#[derive(Clone, Copy)]
pub struct Tenth {
    pub high: u64,
    pub low: u64,
    pub digit: u64,
}

// The digits of the largest number of two words.
pub const MOST_DIGITS: usize = 39;

// The low word is divided in two halves, so that the remainder of the part before fits in front of each.
fn tenth_of(t: Two) -> Tenth
    ensures { result ≡ tenths_of (value t) }
{
    let upper = 4294967296 * (t.high % 10) + t.low / 4294967296;
    let lower = 4294967296 * (upper % 10) + t.low % 4294967296;
    Tenth {
        high: t.high / 10,
        low: 4294967296 * (upper / 10) + lower / 10,
        digit: lower % 10,
    }
}

fn glyph(digit: u64) -> u8
    requires { Digit digit }
    ensures { result ≡ glyph_of digit }
{
    b'0' + digit as u8
}

fn two_of(t: Tenth) -> Two
    ensures { result ≡ record { high = t.high; low = t.low } }
{
    Two {
        high: t.high,
        low: t.low,
    }
}

// Fills the list with the last digits of the number, zeros in front.
pub fn spell(t: Two, out: &mut [u8])
    ensures { out.new ≡ digits_of (length out.old) (value t) }
{
    let mut rest = t;
    for i in (0..out.len()).rev() {
        let q = tenth_of(rest);
        out[i] = glyph(q.digit);
        rest = two_of(q);
    }
}

// Where the digits begin that are no zeros in front. The last digit is never one, so no `position` of the text says it.
pub fn first_digit(text: &[u8]) -> usize
    ensures { Begins result text.now }
{
    let mut i: usize = 0;
    while i + 1 < text.len() {
        if text[i] != b'0' {
            return i;
        }
        i += 1;
    }
    i
}
