#![tactic(auto)]
// The report on outlines in whole microdegrees: a vertex a line, an empty line between outlines, from the file that the argument names or from standard input.
// What cannot be read, and a second name, is said on standard error, and then there is no report.
mod gathered;
mod print;
mod read;

use std::env::{Env, FillError};
use std::{fs, io, str};

// The system's number for a name that is too long.
const NAME_TOO_LONG: i32 = 36;

// Whether there is an argument of this number. The program's name is number 0.
fn given(rt: &impl Env, i: usize) -> bool {
    let mut start = [0u8; 1];
    !matches!(rt.arg(i, &mut start), Err(FillError::NotPresent))
}

fn main(rt: HostRuntime) {
    if !given(&rt, 1) {
        read::report_on(&rt, &mut rt.stdin());
        return;
    }
    if given(&rt, 2) {
        let _ = eprintln!(rt; "report: one file, and no second");
        return;
    }
    let mut path = [0u8; 4096];
    let Ok(n) = rt.arg(1, &mut path) else {
        print::fail(&rt, "file", io::Error::from_raw_os_error(NAME_TOO_LONG));
        return;
    };
    let Ok(path) = str::from_utf8(&path[..n]) else {
        print::fail(&rt, "file", io::Error::from(io::ErrorKind::InvalidFilename));
        return;
    };
    match fs::open(&rt, path) {
        Ok(mut file) => read::report_on(&rt, &mut file),
        Err(e) => print::fail(&rt, path, e),
    }
}
