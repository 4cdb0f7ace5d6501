#![tactic(auto)]
// Replays recorded answers of exact integers, data/vectors.bin, through the entries over straight masks. tools/compare-straight writes the file: a count, then for each case its entry, its length in words and its words.
mod case;
mod words;

use std::fs::File;
use std::io;
use std::io::Read;

// The counts: cases of each entry, then all that differ.
fn show(rt: &impl Print, counts: &[usize]) {
    let winding = words::count(counts, 0);
    let area = words::count(counts, 1);
    let report = words::count(counts, 2);
    let differ = words::count(counts, 3);
    let seen = words::count(counts, 4);
    let all = words::count(counts, 5);
    let _ = println!(rt; "mask_straight_winding {winding} cases");
    let _ = println!(rt; "mask_straight_area {area} cases");
    let _ = println!(rt; "mask_straight_report {report} cases");
    let _ = println!(rt; "{seen} of {all} cases, {differ} differ");
}

// A case of an entry. Place 3 counts those that differ, 4 all. A list and no struct: the first three places go by the entry's number in the file.
fn tally(counts: &mut [usize], entry: usize, holds: bool) {
    words::add(counts, entry);
    words::add(counts, 4);
    if !holds {
        words::add(counts, 3);
    }
}

// The front of a list, to be written.
fn front(buf: &mut [u8], n: usize) -> &mut [u8] {
    if n > buf.len() {
        return &mut buf[..0];
    }
    &mut buf[0..n]
}

// Reads so many bytes into a list that is as long: yes where they were all there.
fn filled(file: &mut File, buf: &mut [u8]) -> bool {
    file.read_exact(buf).is_ok()
}

// Reads so many words to the front of the buffer.
fn read_words(file: &mut File, buf: &mut [u8], n: usize) -> bool {
    if n > buf.len() / 8 {
        return false;
    }
    filled(file, front(buf, 8 * n))
}

// One case: its entry and its length, then its words. Yes where it was all there.
fn replay(file: &mut File, buf: &mut [u8], counts: &mut [usize]) -> bool {
    if !read_words(file, buf, 2) {
        return false;
    }
    let entry = words::at(buf, 0);
    let n = words::at(buf, 1);
    if !read_words(file, buf, n) {
        return false;
    }
    tally(counts, entry, case::holds(entry, buf));
    true
}

// As many cases as the file's head says, and fewer where it breaks off.
fn replay_all(file: &mut File, count: usize, buf: &mut [u8], counts: &mut [usize]) {
    for _ in 0..count {
        if !replay(file, buf, counts) {
            break;
        }
    }
}

// The whole file.
fn replay_file(file: &mut File, buf: &mut [u8], counts: &mut [usize]) {
    if !read_words(file, buf, 1) {
        return;
    }
    let all = words::at(buf, 0);
    words::put(counts, 5, all);
    replay_all(file, all, buf, counts);
}

// The words of an error, without the number that std puts behind those of the system.
fn without_number(text: &str) -> &str {
    match text.split_once(" (os error ") {
        Some((said, _)) => said,
        None => text,
    }
}

// Says on standard error that the file cannot be opened, and why.
fn fail<R: Eprint + Alloc>(rt: &R, why: io::Error) {
    let _ = match format!(in rt.alloc(); "{why}") {
        Ok(text) => eprintln!(rt; "vectors.bin: {}", without_number(text.as_str())),
        Err(_) => eprintln!(rt; "vectors.bin: {why}"),
    };
}

fn main(rt: HostRuntime) {
    let mut file = match File::open(&rt, "vectors.bin") {
        Ok(file) => file,
        Err(e) => {
            fail(&rt, e);
            return;
        }
    };
    let mut buf = [0u8; 4096];
    let mut counts = [0usize; 6];
    replay_file(&mut file, &mut buf, &mut counts);
    show(&rt, &counts);
}
