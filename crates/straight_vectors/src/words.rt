// Little-endian words of 8 bytes, and lists of counts.
use fields::field;
use whole::signed;

// The first word, and 0 where there is none.
fn first(s: &[u8]) -> u64 {
    match s.first_chunk::<8>() {
        Some(word) => field::get(word, 0, 8) as u64,
        None => 0,
    }
}

// The words from number i on.
pub(crate) fn from(s: &[u8], i: usize) -> &[u8] {
    if i > s.len() / 8 {
        return &s[..0];
    }
    &s[8 * i..]
}

// Word i, and 0 beyond the end.
pub(crate) fn word(s: &[u8], i: usize) -> u64 {
    first(from(s, i))
}

pub(crate) fn at(s: &[u8], i: usize) -> usize {
    word(s, i) as usize
}

// Word i as a signed number: it stands there with 2^61 added.
pub(crate) fn number(s: &[u8], i: usize) -> i64 {
    let w = word(s, i);
    if w >= 4611686018427387904 {
        return 0;
    }
    signed::signed(w) - 2305843009213693952
}

pub(crate) fn count(counts: &[usize], i: usize) -> usize {
    counts.get(i).copied().unwrap_or(0)
}

pub(crate) fn put(counts: &mut [usize], i: usize, n: usize) {
    if i < counts.len() {
        counts[i] = n;
    }
}

// One more at place i.
pub(crate) fn add(counts: &mut [usize], i: usize) {
    let n = count(counts, i);
    put(counts, i, n.wrapping_add(1));
}
