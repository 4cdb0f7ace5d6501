#![tactic(auto)]
// Replays the recorded answers of the original, data/vectors.bin, through the exported entries. oracle/RECORD.md says what stands in the file.
mod bits;
mod case;
mod cuts;
mod entry;
mod lists;
mod pruning;
mod starts;
mod stitching;
mod tally;
mod views;
mod words;

use crate::entry::Entry;
use crate::tally::Tally;
use std::fs::File;
use std::io;
use std::io::Read;

// The number that a record begins with.
const MARK: usize = 3549757168231334221;

// Reads so many words to the front of the buffer: none where they are not all there.
fn read_words<'a>(file: &mut File, buf: &'a mut [u8], n: usize) -> Option<&'a [u8]> {
    if n > buf.len() / 8 {
        return None;
    }
    let read = &mut buf[..8 * n];
    file.read_exact(read).ok()?;
    Some(read)
}

// Two words.
fn read_pair(file: &mut File) -> Option<(usize, usize)> {
    let mut buf = [0u8; 16];
    let pair = read_words(file, &mut buf, 2)?;
    Some((bits::word_at(pair, 0), bits::word_at(pair, 1)))
}

// Replays one case, and counts it: its entry and its length, then its words. None where it is not all there.
fn replay(file: &mut File, buf: &mut [u8], tally: &mut Tally) -> Option<()> {
    let (number, n) = read_pair(file)?;
    let own = read_words(file, buf, n)?;
    let entry = Entry::try_from(number).ok();
    tally.count(number, own, entry.is_some_and(|e| case::holds(e, own)));
    Some(())
}

// All cases, as many as the file's head says, and fewer where the record breaks off.
fn replay_all(file: &mut File, tally: &mut Tally) -> Option<()> {
    let (mark, count) = read_pair(file)?;
    if mark != MARK {
        return None;
    }
    tally.announced = count;
    let mut buf = [0u8; 32768];
    for _ in 0..count {
        replay(file, &mut buf, tally)?;
    }
    Some(())
}

// The words of an error, without the number that std puts behind those of the system.
fn without_number(text: &str) -> &str {
    match text.split_once(" (os error ") {
        Some((said, _)) => said,
        None => text,
    }
}

// Says on standard error that the file cannot be opened, and why.
fn fail<R: Eprint + Alloc>(rt: &R, why: io::Error) {
    let _ = match format!(in rt.alloc(); "{why}") {
        Ok(text) => eprintln!(rt; "vectors.bin: {}", without_number(text.as_str())),
        Err(_) => eprintln!(rt; "vectors.bin: {why}"),
    };
}

fn main(rt: HostRuntime) {
    let mut file = match File::open(&rt, "vectors.bin") {
        Ok(file) => file,
        Err(e) => {
            fail(&rt, e);
            return;
        }
    };
    let mut tally = Tally::NONE;
    let _ = replay_all(&mut file, &mut tally);
    let _ = tally.show(&rt);
}
