// Words, whole numbers, and the numbers of the sheet.
use std::io;

pub(crate) fn word(rt: &impl Print, text: &[u8]) -> io::Result<()> {
    rt.write_all(text)
}

pub(crate) fn whole(rt: &impl Print, n: usize) -> io::Result<()> {
    rt.print(n)
}

// A number's whole part, and a half where it has one: the sheet has no others.
pub(crate) fn number(rt: &impl Print, x: f64) -> io::Result<()> {
    if x > -1.0 {
        if x < 18446744073709551616.0 {
            let n = std::num::truncating_f64_to_u64(x);
            rt.print(n)?;
            if x - std::num::nearest_u64_to_f64(n) == 0.5 {
                word(rt, b".5")?;
            }
            return Ok(());
        }
    }
    word(rt, b"?")
}

pub(crate) fn corner(rt: &impl Print, x: f64, y: f64) -> io::Result<()> {
    word(rt, b" (")?;
    number(rt, x)?;
    word(rt, b",")?;
    number(rt, y)?;
    word(rt, b")")
}

// What an entry gave in place of an answer.
pub(crate) fn refused(rt: &impl Print, number: u32) -> io::Result<()> {
    word(rt, b"refused ")?;
    whole(rt, number as usize)?;
    word(rt, b"\n")
}

// The starts and offsets of candidates, two numbers each.
pub(crate) fn starts_and_offsets(rt: &impl Print, at: &[usize]) -> io::Result<()> {
    let mut i: usize = 0;
    while i < at.len() / 2 {
        let k = 2 * i;
        word(rt, b" [start ")?;
        whole(rt, at[k])?;
        word(rt, b" offset ")?;
        whole(rt, at[k + 1])?;
        word(rt, b"]")?;
        i += 1;
    }
    Ok(())
}

pub(crate) fn three(rt: &impl Print, a: usize, b: usize, c: usize) -> io::Result<()> {
    word(rt, b" ")?;
    whole(rt, a)?;
    word(rt, b" ")?;
    whole(rt, b)?;
    word(rt, b" ")?;
    whole(rt, c)
}
