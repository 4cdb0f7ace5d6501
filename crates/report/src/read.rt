// Reading to the end.
use crate::gathered::State;
use crate::print;
use std::io;
use std::io::Read;

// Every byte that can be read there. A proved loop must end, and an input need not. So the turns are counted, up to a number that no run reaches.
fn read_all<R: Eprint, F: Read>(
    rt: &R,
    file: &mut F,
    state: &mut State,
    points: &mut [i64],
) -> io::Result<()> {
    let mut buf = [0u8; 65536];
    for _ in 0..u64::MAX {
        let n = file.read(&mut buf)?;
        if n == 0 {
            break;
        }
        for c in &buf[..n] {
            state.take(rt, points, *c);
        }
    }
    Ok(())
}

// The report on what can be read there. Where a read failed, or a line is no pair, there is none.
pub(crate) fn report_on<R: Print + Eprint + Alloc, F: Read>(rt: &R, file: &mut F) {
    let mut points = [0i64; 2050];
    let mut state = State::begin();
    let read = read_all(rt, file, &mut state, &mut points);
    if let Err(e) = read {
        print::fail(rt, "read", e);
        state.bad = true;
    }
    state.finish(rt, &mut points);
    if !state.bad {
        print::report(rt, state.so_far);
    }
}
