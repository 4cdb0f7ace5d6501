// What the entries answer: flat structs, by value. On a refusal all but its number is 0.
ghost use Rattle.std.specs.Prelude.{◌≡◌};
ghost use Rattle.straight_entries.specs.Answers.{winding_refused, winding_found, area_refused, area_found, area_numbers, report_refused, report_found};

use straight::sum::Area;
use straight_report::Report;

#[repr(C)]
#[derive(Clone, Copy)]
pub struct WindingAnswer {
    pub refusal: u32,
    pub winding: i64,
}

#[repr(C)]
#[derive(Clone, Copy)]
pub struct AreaAnswer {
    pub refusal: u32,
    pub negative: u32,
    pub high: u64,
    pub low: u64,
}

#[repr(C)]
#[derive(Clone, Copy)]
pub struct ReportAnswer {
    pub refusal: u32,
    pub count: usize,
    pub zero: usize,
    pub high: u64,
    pub low: u64,
}

pub fn winding_refused(number: u32) -> WindingAnswer
    ensures { result ≡ winding_refused number }
{
    WindingAnswer {
        refusal: number,
        winding: 0,
    }
}

pub fn winding_found(winding: i64) -> WindingAnswer
    ensures { result ≡ winding_found winding }
{
    WindingAnswer {
        refusal: 0,
        winding,
    }
}

pub fn area_refused(number: u32) -> AreaAnswer
    ensures { result ≡ area_refused number }
{
    AreaAnswer {
        refusal: number,
        negative: 0,
        high: 0,
        low: 0,
    }
}

pub fn area_found(a: Area) -> AreaAnswer
    ensures { result ≡ area_found a }
{
    area_of_numbers(u32::from(a.negative), a.size.high, a.size.low)
}

// The same, for callers that hold the sign and the size's two words as numbers.
pub fn area_of_numbers(negative: u32, high: u64, low: u64) -> AreaAnswer
    ensures { result ≡ area_numbers negative high low }
{
    AreaAnswer {
        refusal: 0,
        negative,
        high,
        low,
    }
}

pub fn report_refused(number: u32) -> ReportAnswer
    ensures { result ≡ report_refused number }
{
    ReportAnswer {
        refusal: number,
        count: 0,
        zero: 0,
        high: 0,
        low: 0,
    }
}

pub fn report_found(count: usize, t: Report) -> ReportAnswer
    ensures { result ≡ report_found count t }
{
    ReportAnswer {
        refusal: 0,
        count,
        zero: t.zero,
        high: t.total.high,
        low: t.total.low,
    }
}
