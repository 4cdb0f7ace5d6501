// Little-endian words of 8 bytes.
use fields::field;

// The first word, and 0 where there is none.
pub(crate) fn word(s: &[u8]) -> usize {
    if s.len() < 8 {
        return 0;
    }
    field::get(s, 0, 8)
}

// Word i, and 0 beyond the end.
pub(crate) fn word_at(s: &[u8], i: usize) -> usize {
    if i >= s.len() / 8 {
        return 0;
    }
    word(&s[8 * i..])
}

// The lowest byte of a word.
pub(crate) fn low(word: usize) -> u8 {
    (word % 256) as u8
}

// A sum so far, and every word added to it, modulo 2^64: one changed bit changes it.
pub(crate) fn sum(s: &[u8], so_far: usize) -> usize {
    let mut total = so_far;
    for i in 0..s.len() / 8 {
        total = total.wrapping_add(word_at(s, i));
    }
    total
}
