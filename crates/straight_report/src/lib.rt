#![tactic(auto)]
// The report on many outlines: how many have area zero, and the total of the absolute doubled areas.
ghost use Rattle.std.specs.Prelude.{◌≡◌, eqb};
ghost use Rattle.whole.specs.Two.{value};
ghost use Rattle.straight.specs.Plane.{spots, area};
ghost use Rattle.straight.specs.Words.{area_words};
ghost use Rattle.straight_report.specs.Report.{Cut, Loops, part, outlines, report_of};

use straight::sum;
use straight::sum::Area;
use whole::two;
use whole::two::Two;

#[derive(Clone, Copy)]
pub struct Report {
    pub zero: usize,
    pub total: Two,
}

// The area of the outline from vertex `from` to the end `end`.
fn area_between(points: &[i64], from: usize, end: usize) -> Area
    requires { Cut points.now from end }
    ensures { result ≡ area_words (area (spots (part points.now from end))) }
{
    let a = 2 * from;
    let b = 2 * end;
    sum::area_of(&points[a..b], end - from)
}

// Whether an area is zero.
#[tactic(auto, using(crate::specs::ReportLaws::zero_words))]
fn is_zero(a: Area) -> bool
    ensures { result ≡ eqb (value a.size) 0 }
{
    a.size.high == 0 && a.size.low == 0
}

// The report on outlines whose vertices lie one outline after the other; each end says how many vertices all outlines up to and with its own have.
pub fn report_of(points: &[i64], ends: &[usize]) -> Report
    requires { Loops points.now ends.now }
    ensures { result ≡ report_of (outlines points.now 0 ends.now) }
{
    let mut zero: usize = 0;
    let mut total = Two::from(0);
    let mut from: usize = 0;
    for end in ends {
        let a = area_between(points, from, *end);
        zero += usize::from(is_zero(a));
        total = two::add(total, a.size);
        from = *end;
    }
    Report { zero, total }
}
