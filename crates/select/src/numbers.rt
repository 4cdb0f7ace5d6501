#![tactic(auto, using(basis::specs::Choice::cases), unfolding(crate::specs::Numbers::suits_code, crate::specs::Numbers::kept_number, crate::specs::Numbers::no_numbers, crate::specs::Numbers::offer_numbers, crate::specs::Numbers::chosen_number))]
// The scan of `best`, for callers that hold the class, the choices and the slices as numbers.
ghost use Rattle.std.specs.Prelude.{◌≡◌};
ghost use Rattle.select.specs.Numbers.{suits_code, kept_number, offer_numbers, no_numbers, chosen_number};

use crate::best::NO_NUMBER;

// The three choices of one class, in order: 1 and 2 are non-overlapping of that outline, 3 is any slice, 0 is none.
#[derive(Clone, Copy)]
pub struct ChoiceCodes {
    pub first: usize,
    pub second: usize,
    pub third: usize,
}

// Of each choice the first slice that suited so far, or NO_NUMBER.
#[derive(Clone, Copy)]
pub struct BestNumbers {
    pub first: usize,
    pub second: usize,
    pub third: usize,
}

// Before the first candidate.
pub fn none_yet() -> BestNumbers
    ensures { result ≡ no_numbers }
{
    BestNumbers {
        first: NO_NUMBER,
        second: NO_NUMBER,
        third: NO_NUMBER,
    }
}

// A slice of this class, 0 to 3 in the order of `Class`, may be taken for this choice. Any other number suits nothing.
fn suits(code: usize, class: usize) -> bool
    ensures { result ≡ suits_code code class }
{
    if code == 3 {
        return true;
    }
    if code == 1 {
        return class == 0;
    }
    code == 2 && class == 1
}

// For one choice: the slice that suited before, else this candidate where it suits.
fn kept(before: usize, code: usize, candidate: usize, class: usize) -> usize
    ensures { result ≡ kept_number before code candidate class }
{
    if before != NO_NUMBER {
        return before;
    }
    if suits(code, class) {
        candidate
    } else {
        before
    }
}

// The next candidate of the scan, with its class.
pub fn offer(best: BestNumbers, choices: ChoiceCodes, candidate: usize, class: usize) -> BestNumbers
    ensures { result ≡ offer_numbers best choices candidate class }
{
    BestNumbers {
        first: kept(best.first, choices.first, candidate, class),
        second: kept(best.second, choices.second, candidate, class),
        third: kept(best.third, choices.third, candidate, class),
    }
}

// After the last candidate: the first choice before the second, the second before the third.
pub fn chosen(best: BestNumbers) -> Option<usize>
    ensures { result ≡ chosen_number best }
{
    if best.first != NO_NUMBER {
        return Some(best.first);
    }
    if best.second != NO_NUMBER {
        return Some(best.second);
    }
    if best.third != NO_NUMBER {
        return Some(best.third);
    }
    None
}
