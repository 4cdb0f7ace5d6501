// Words and numbers.
use std::io;
use straight_entries::answer::ReportAnswer;
use whole::two::Two;

// A number of two words.
fn wide(rt: &impl Print, n: Two) {
    let mut text = [0u8; 39];
    text::decimal::spell(n, &mut text);
    let from = text::decimal::first_digit(&text);
    let _ = rt.write_all(&text[from..]);
}

// The words of an error, without the number that std puts behind those of the system.
fn words(text: &str) -> &str {
    match text.split_once(" (os error ") {
        Some((words, _)) => words,
        None => text,
    }
}

// Says on standard error what failed, and why.
pub(crate) fn fail<R: Eprint + Alloc>(rt: &R, what: &str, why: io::Error) {
    let _ = match format!(in rt.alloc(); "{why}") {
        Ok(text) => eprintln!(rt; "{what}: {}", words(text.as_str())),
        Err(_) => eprintln!(rt; "{what}: {why}"),
    };
}

// The first word of an answer. Where it cannot be written, on a full disk, that is said, and there is no answer.
fn first_word<R: Print + Eprint + Alloc>(rt: &R, text: &str) -> bool {
    match print!(rt; "{text}") {
        Ok(()) => true,
        Err(e) => {
            fail(rt, "standard output", e);
            false
        }
    }
}

// What the report says, or the number of its refusal.
pub(crate) fn report<R: Print + Eprint + Alloc>(rt: &R, r: ReportAnswer) {
    if r.refusal != 0 {
        if first_word(rt, "refused ") {
            let _ = println!(rt; "{}", r.refusal);
        }
        return;
    }
    if first_word(rt, "outlines ") {
        let _ = println!(rt; "{}\narea zero {}", r.count, r.zero);
        let _ = print!(rt; "total of the absolute doubled areas ");
        wide(
            rt,
            Two {
                high: r.high,
                low: r.low,
            },
        );
        let _ = println!(rt);
    }
}

// A line that is no pair.
pub(crate) fn no_pair(rt: &impl Eprint, line: u64) {
    let _ = eprintln!(rt; "line {line}: no pair of whole numbers");
}
