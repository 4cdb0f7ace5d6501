#![tactic(auto)]
// Runs an archived stitch again: reads the record in the file that the argument names, or from standard input where there is none, and prints the outcome.
// What cannot be read, and a second name, is said on standard error, and then nothing is printed.
mod read;
mod show;

use std::env::{Env, FillError};
use std::rt::Files;
use std::{fs, io, str};

// The system's number for a name that is too long.
const NAME_TOO_LONG: i32 = 36;

// Whether there is an argument of this number. The program's name is number 0.
fn given(rt: &impl Env, i: usize) -> bool {
    let mut start = [0u8; 1];
    !matches!(rt.arg(i, &mut start), Err(FillError::NotPresent))
}

fn replay_file<R: Files + Print + Eprint + Alloc>(rt: &R, path: &str) {
    match fs::open(rt, path) {
        Ok(mut file) => read::replay_from(rt, &mut file, path),
        Err(e) => show::fail(rt, path, e),
    }
}

fn main(rt: HostRuntime) {
    if !given(&rt, 1) {
        read::replay_from(&rt, &mut rt.stdin(), "standard input");
        return;
    }
    if given(&rt, 2) {
        let _ = eprintln!(rt; "replay: one file, and no second");
        return;
    }
    let mut path = [0u8; 4096];
    let Ok(n) = rt.arg(1, &mut path) else {
        show::fail(&rt, "path", io::Error::from_raw_os_error(NAME_TOO_LONG));
        return;
    };
    let Ok(path) = str::from_utf8(&path[..n]) else {
        show::fail(&rt, "path", io::Error::from(io::ErrorKind::InvalidFilename));
        return;
    };
    replay_file(&rt, path);
}
