#![tactic(auto, using(basis::specs::Choice::cases), unfolding(crate::specs::Lines::is_blank, crate::specs::Lines::is_digit, crate::specs::Lines::more, crate::specs::Lines::on_blank, crate::specs::Lines::on_minus, crate::specs::Lines::on_digit, crate::specs::Lines::in_first, crate::specs::Lines::stage_of, crate::specs::Lines::other_read, crate::specs::Lines::step, crate::specs::Lines::is_pair, crate::specs::Lines::coordinate_of, crate::specs::Lines::stage_numbered, crate::specs::Lines::line_numbered))]
// A line of text, byte by byte: a vertex as two whole numbers, an empty line, or neither.
ghost use Rattle.std.specs.Prelude.{◌≡◌, ◌≤◌, eqb};
ghost use Rattle.text.specs.Lines.{is_blank, is_digit, more, on_blank, on_minus, on_digit, digit_of, digit_read, minus_read, shifted, moved, stage_of, other_read, step, is_pair, is_empty, coordinate_of, stage_numbered, line_numbered, Capped};

use whole::signed;

// How far a line came.
#[derive(Clone, Copy, PartialEq, Eq)]
pub enum Stage {
    Start, // nothing but blanks
    FirstSign, // the first number's minus sign
    FirstDigits, // its digits
    Between, // blanks after it
    SecondSign, // the second number's minus sign
    SecondDigits, // its digits
    After, // blanks after it
    NoPair, // no pair, whatever follows
}

use Stage::{After, Between, FirstDigits, FirstSign, NoPair, SecondDigits, SecondSign, Start};

// What was read of a line: how far it came, the number that is being read, and the first number once it is read.
#[derive(Clone, Copy)]
pub struct Line {
    pub stage: Stage,
    pub negative: bool,
    pub size: u64,
    pub first_negative: bool,
    pub first_size: u64,
}

// The same with numbers, for callers that hold it so: the stage as `Stage` counts, every number past them no pair; 1 for a minus sign.
#[derive(Clone, Copy)]
pub struct NumberedLine {
    pub stage: u32,
    pub negative: u32,
    pub size: u64,
    pub first_negative: u32,
    pub first_size: u64,
}

impl From<u32> for Stage {
    ghost from_gives = { λ n result. result ≡ stage_numbered n };

    fn from(n: u32) -> Stage {
        match n {
            0 => Start,
            1 => FirstSign,
            2 => FirstDigits,
            3 => Between,
            4 => SecondSign,
            5 => SecondDigits,
            6 => After,
            _ => NoPair,
        }
    }
}

impl From<NumberedLine> for Line {
    ghost from_gives = { λ l result. result ≡ line_numbered l };

    fn from(l: NumberedLine) -> Line {
        Line {
            stage: Stage::from(l.stage),
            negative: l.negative == 1,
            size: l.size,
            first_negative: l.first_negative == 1,
            first_size: l.first_size,
        }
    }
}

// A space, a tab or a carriage return.
fn is_blank(c: u8) -> bool
    ensures { result ≡ is_blank c }
{
    c == b' ' || (c == b'\t' || c == b'\r')
}

fn is_digit(c: u8) -> bool
    ensures { result ≡ is_digit c }
{
    b'0' <= c && c <= b'9'
}

// A digit more. What is past the range stays so.
fn more_of(size: u64, digit: u64) -> u64
    requires { digit ≤ 255 }
    ensures { result ≡ more size digit }
{
    if 400_000_000 < size {
        size
    } else {
        10 * size + digit
    }
}

fn on_blank(stage: Stage) -> Stage
    ensures { result ≡ on_blank stage }
{
    match stage {
        Start => Start,
        FirstDigits | Between => Between,
        SecondDigits | After => After,
        _ => NoPair,
    }
}

fn on_minus(stage: Stage) -> Stage
    ensures { result ≡ on_minus stage }
{
    match stage {
        Start => FirstSign,
        Between => SecondSign,
        _ => NoPair,
    }
}

fn on_digit(stage: Stage) -> Stage
    ensures { result ≡ on_digit stage }
{
    match stage {
        Start | FirstSign | FirstDigits => FirstDigits,
        Between | SecondSign | SecondDigits => SecondDigits,
        _ => NoPair,
    }
}

fn digit_of(c: u8) -> u64
    ensures { (result ≡ digit_of c) × (result ≤ 255) }
{
    if c < b'0' { 0 } else { u64::from(c - b'0') }
}

fn digit_read(l: Line, c: u8) -> Line
    ensures { result ≡ digit_read l c }
{
    Line {
        stage: on_digit(l.stage),
        size: more_of(l.size, digit_of(c)),
        ..l
    }
}

fn minus_read(l: Line) -> Line
    ensures { result ≡ minus_read l }
{
    Line {
        stage: on_minus(l.stage),
        negative: true,
        ..l
    }
}

// The first number is read.
fn shifted_by(l: Line, stage: Stage) -> Line
    ensures { result ≡ shifted l stage }
{
    Line {
        stage,
        negative: false,
        size: 0,
        first_negative: l.negative,
        first_size: l.size,
    }
}

fn moved_to(l: Line, stage: Stage) -> Line
    ensures { result ≡ moved l stage }
{
    Line { stage, ..l }
}

// Where a byte leads that is no digit and no minus sign.
fn stage_of(stage: Stage, c: u8) -> Stage
    ensures { result ≡ stage_of stage c }
{
    if is_blank(c) { on_blank(stage) } else { NoPair }
}

fn other_read(l: Line, c: u8) -> Line
    ensures { result ≡ other_read l c }
{
    let stage = stage_of(l.stage, c);
    if l.stage == FirstDigits {
        shifted_by(l, stage)
    } else {
        moved_to(l, stage)
    }
}

// One byte more of the line.
pub fn take(l: Line, c: u8) -> Line
    ensures { result ≡ step l c }
{
    if is_digit(c) {
        digit_read(l, c)
    } else if c == b'-' {
        minus_read(l)
    } else {
        other_read(l, c)
    }
}

// The line is a pair: it ended in the second number, or in blanks after it.
pub fn is_pair(l: Line) -> bool
    ensures { result ≡ is_pair l }
{
    matches!(l.stage, SecondDigits | After)
}

// The line is empty, but for blanks.
pub fn is_empty(l: Line) -> bool
    ensures { result ≡ is_empty l }
{
    l.stage == Start
}

// A number's size, and one past the range for all that are past it.
fn capped(size: u64) -> u64
    ensures { Capped size result }
{
    size.min(400_000_001)
}

// A number that was read, as a coordinate.
pub fn coordinate(negative: bool, size: u64) -> i64
    ensures { result ≡ coordinate_of negative size }
{
    let n = signed::signed(capped(size));
    if negative {
        return signed::minus(0, n);
    }
    n
}

// The same, where 1 is a minus sign and any other number none.
pub fn coordinate_by(negative: u32, size: u64) -> i64
    ensures { result ≡ coordinate_of (eqb negative 1) size }
{
    coordinate(negative == 1, size)
}
