// The words of a case: as whole numbers, as floats, as bytes; parts of them; what they are compared with.

// Word i, and 0 beyond the end.
pub(crate) fn at(w: &[usize], i: usize) -> usize {
    w.get(i).copied().unwrap_or(0)
}

// The same as a float.
pub(crate) fn float_at(x: &[f64], i: usize) -> f64 {
    x.get(i).copied().unwrap_or(0.0)
}

// Word i as a code. One that is too large for a code is turned into the largest.
pub(crate) fn code_at(w: &[usize], i: usize) -> u32 {
    u32::try_from(at(w, i)).unwrap_or(u32::MAX)
}

// The place k words after place p, and the end where it is beyond.
pub(crate) fn after(w: &[usize], p: usize, k: usize) -> usize {
    p.saturating_add(k).min(w.len())
}

// The place behind the list at place p: its length stands first. A list that is too long ends the case.
pub(crate) fn behind(w: &[usize], p: usize) -> usize {
    after(w, after(w, p, 1), at(w, p))
}

// The list at place p, of the words in any of their forms.
pub(crate) fn list<'a, T>(w: &[usize], l: &'a [T], p: usize) -> &'a [T] {
    let end = behind(w, p).min(l.len());
    let begin = p.saturating_add(1).min(end);
    &l[begin..end]
}

// The same to be lent.
pub(crate) fn lent<'a, T>(w: &[usize], l: &'a mut [T], p: usize) -> &'a mut [T] {
    let end = behind(w, p).min(l.len());
    let begin = p.saturating_add(1).min(end);
    &mut l[begin..end]
}

// So many editions, all 0: the calls were recorded without. A count that is too large for any list has none, and is refused.
pub(crate) fn editions(l: &[u32], n: usize) -> &[u32] {
    if n > l.len() {
        return &l[..0];
    }
    &l[..n]
}

// A word's pattern is a NaN's.
fn is_nan(word: usize) -> bool {
    word % 9223372036854775808 > 9218868437227405312
}

// The float of a pattern. A NaN is any NaN.
pub(crate) fn float_of(word: usize) -> f64 {
    if word % 9223372036854775808 <= 9218868437227405312 {
        return f64::from_bits(word as u64);
    }
    0.0 / 0.0
}

// The float has the pattern of the word: equal, and of two zeros the same sign. A NaN is any NaN.
pub(crate) fn same(word: usize, x: f64) -> bool {
    if is_nan(word) {
        return x != x;
    }
    let y = float_of(word);
    if y != 0.0 {
        return x == y;
    }
    if x != 0.0 {
        return false;
    }
    (1.0 / x > 0.0) == (word == 0)
}

// Word i is this whole number, this code, this float.
pub(crate) fn is(w: &[usize], i: usize, n: usize) -> bool {
    at(w, i) == n
}

pub(crate) fn is_code(w: &[usize], i: usize, n: u32) -> bool {
    code_at(w, i) == n
}

pub(crate) fn is_float(w: &[usize], i: usize, x: f64) -> bool {
    same(at(w, i), x)
}

// The words from place q on, in any of their forms.
pub(crate) fn from<T>(w: &[T], q: usize) -> &[T] {
    &w[q.min(w.len())..]
}

// A list's numbers are the first of these words.
fn same_numbers(l: &[f64], want: &[usize]) -> bool {
    l.len() <= want.len() && l.iter().zip(want).all(|(x, word)| same(*word, *x))
}

// The list at place p, which was lent, holds at exit what the case has from place q on.
pub(crate) fn left_counts(w: &[usize], l: &[usize], p: usize, q: usize) -> bool {
    from(w, q).starts_with(list(w, l, p))
}

pub(crate) fn left_numbers(w: &[usize], l: &[f64], p: usize, q: usize) -> bool {
    same_numbers(list(w, l, p), from(w, q))
}

// The place behind what the case has for the list at place p, which begins at place q.
pub(crate) fn left_behind(w: &[usize], p: usize, q: usize) -> usize {
    after(w, q, list(w, w, p).len())
}
