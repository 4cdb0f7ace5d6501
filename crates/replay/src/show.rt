// What a replay prints.
use record_form::form;
use record_replay::replay;
use std::io;
use stitch::lent::Lent;

// An entry for each slice that is taken; three numbers for each vertex of the need, which is the most where each slice has the most vertices.
const SLICES: usize = form::TAKEN_SLICES;

const ROOM: usize = 3 * (1 + SLICES * (form::TAKEN_VERTICES + 1));

// The words of an error, without the number that std puts behind those of the system.
fn words(text: &str) -> &str {
    match text.split_once(" (os error ") {
        Some((words, _)) => words,
        None => text,
    }
}

// Says on standard error what failed, and why.
pub(crate) fn fail<R: Eprint + Alloc>(rt: &R, what: &str, why: io::Error) {
    let _ = match format!(in rt.alloc(); "{why}") {
        Ok(text) => eprintln!(rt; "{what}: {}", words(text.as_str())),
        Err(_) => eprintln!(rt; "{what}: {why}"),
    };
}

// The first word of an answer. Where it cannot be written, on a full disk, that is said, and there is no answer.
fn first_word<R: Print + Eprint + Alloc>(rt: &R, text: &str) -> bool {
    match print!(rt; "{text}") {
        Ok(()) => true,
        Err(e) => {
            fail(rt, "standard output", e);
            false
        }
    }
}

// The four lists of the chains and loops of an answer.
#[derive(Clone, Copy)]
struct Lists<'a> {
    chain: &'a [usize],
    chain_ends: &'a [usize],
    chain_how: &'a [usize],
    ends: &'a [usize],
}

// Number i of a list, and 0 beyond its end.
fn at(list: &[usize], i: usize) -> usize {
    list.get(i).copied().unwrap_or(0)
}

// How a chain ended.
fn ending(how: usize) -> &'static str {
    match how {
        0 => "closed",
        1 => "small",
        2 => "empty",
        _ => "unselected",
    }
}

// A line for each chain: its slices, how it ended, the vertices of its loop, 0 unless it closed.
fn chains(rt: &impl Print, l: Lists, count: usize) {
    let mut slices = 0;
    let mut vertices = 0;
    let mut loops: usize = 0;
    for i in 0..count {
        let to = at(l.chain_ends, i);
        for k in slices..to {
            let _ = print!(rt; "{} ", at(l.chain, k));
        }
        slices = to;
        let how = at(l.chain_how, i);
        let mut own = 0;
        if how == 0 {
            let end = at(l.ends, loops);
            own = end.saturating_sub(vertices);
            vertices = end;
            loops = loops.saturating_add(1);
        }
        let _ = println!(rt; "{} {own}", ending(how));
    }
}

// The counts, and a line for each chain; or the number of a refusal.
pub(crate) fn replay<R: Print + Eprint + Alloc>(rt: &R, bytes: &[u8]) {
    let mut room = [0.0f64; ROOM];
    let mut ends = [0usize; SLICES];
    let mut chain = [0usize; SLICES];
    let mut chain_ends = [0usize; SLICES];
    let mut chain_how = [0usize; SLICES];
    let mut lent = Lent {
        room: &mut room,
        ends: &mut ends,
        chain: &mut chain,
        chain_ends: &mut chain_ends,
        chain_how: &mut chain_how,
    };
    let r = replay::replay(bytes, &mut lent);
    if r.refusal != 0 {
        if first_word(rt, "refused ") {
            let _ = println!(rt; "{}", r.refusal);
        }
        return;
    }
    if first_word(rt, "slices ") {
        let _ = println!(rt; "{} rounds {} loops {}", r.slices, r.rounds, r.loops);
        let lists = Lists {
            chain: &chain,
            chain_ends: &chain_ends,
            chain_how: &chain_how,
            ends: &ends,
        };
        chains(rt, lists, r.chains);
    }
}
