// One recorded call, made again.
use crate::words;

// The first numbers of the case. A longer list is not in the record.
fn numbers(own: &[u8], list: &mut [i64]) {
    for (i, n) in list.iter_mut().enumerate() {
        *n = words::number(own, i);
    }
}

fn ends(own: &[u8], list: &mut [usize]) {
    for (i, n) in list.iter_mut().enumerate() {
        *n = words::at(own, i);
    }
}

// The front of a list.
fn front<T>(list: &[T], n: usize) -> &[T] {
    list.get(..n).unwrap_or(&[])
}

fn winding(outline: &[i64], told: &[u8]) -> bool {
    let a = straight_entries::winding::entry(
        outline,
        words::at(told, 0),
        words::number(told, 1),
        words::number(told, 2),
    );
    a.refusal as usize == words::at(told, 3) && a.winding == words::number(told, 4)
}

fn area(outline: &[i64], told: &[u8]) -> bool {
    let a = straight_entries::area::entry(outline, words::at(told, 0));
    a.refusal as usize == words::at(told, 1)
        && a.negative as usize == words::at(told, 2)
        && a.high == words::word(told, 3)
        && a.low == words::word(told, 4)
}

fn report(points: &[i64], told: &[u8]) -> bool {
    let count = words::at(told, 0);
    let mut list = [0usize; 16];
    ends(words::from(told, 1), &mut list);
    if count > 16 {
        return false;
    }
    reported(points, front(&list, count), words::from(told, count + 1))
}

fn reported(points: &[i64], ends: &[usize], told: &[u8]) -> bool {
    let a = straight_entries::report::entry(points, ends, words::at(told, 0));
    a.refusal as usize == words::at(told, 1)
        && a.count == words::at(told, 2)
        && a.zero == words::at(told, 3)
        && a.high == words::word(told, 4)
        && a.low == words::word(told, 5)
}

// Its answer is the recorded one.
pub(crate) fn holds(entry: usize, own: &[u8]) -> bool {
    let n = words::at(own, 0);
    let mut list = [0i64; 256];
    numbers(words::from(own, 1), &mut list);
    if n > 256 {
        return false;
    }
    answered(entry, front(&list, n), words::from(own, n + 1))
}

// The entry goes by its number, as the file has it.
fn answered(entry: usize, outline: &[i64], told: &[u8]) -> bool {
    match entry {
        0 => winding(outline, told),
        1 => area(outline, told),
        _ => report(outline, told),
    }
}
