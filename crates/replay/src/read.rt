// Reading a record.
ghost use Rattle.std.specs.Prelude.{◌≤◌, length, IfOk};

use crate::show;
use record_form::form;
use std::io;
use std::io::Read;

// One byte more than a record of either version has at most, so that a longer one is seen to be longer.
const BYTES: usize = form::RECORD2_MOST + 1;

// Reads until the list is full, the input ends or a read fails: how many bytes. A turn reads a byte at least, so there are no more turns than bytes.
fn read_all<F: Read>(file: &mut F, bytes: &mut [u8]) -> io::Result<usize>
    ensures { IfOk result (λ n. n ≤ length bytes.new) }
{
    let mut done = 0;
    'turns: for _ in 0..bytes.len() {
        let got = file.read(&mut bytes[done..])?;
        if got == 0 {
            break;
        }
        done += got;
    }
    Ok(done)
}

// Replays the record that can be read there, or says by that name why it cannot.
pub(crate) fn replay_from<R: Print + Eprint + Alloc, F: Read>(rt: &R, file: &mut F, name: &str) {
    let mut bytes = [0u8; BYTES];
    match read_all(file, &mut bytes) {
        Ok(n) => show::replay(rt, &bytes[..n]),
        Err(e) => show::fail(rt, name, e),
    }
}
