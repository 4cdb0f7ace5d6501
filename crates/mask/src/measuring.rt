// Straight masks in whole microdegrees.
ghost use Rattle.std.specs.Prelude.{◌≡◌};
ghost use Rattle.straight_entries.specs.WindingEntry.{winding_answer};
ghost use Rattle.straight_entries.specs.AreaEntry.{area_answer};
ghost use Rattle.straight_entries.specs.ReportEntry.{report_answer};

use straight_entries::answer::{AreaAnswer, ReportAnswer, WindingAnswer};

// The winding number of an outline round a probe, which comes in doubled coordinates. Any number but 0 means inside.
pub fn mask_straight_winding(outline: &[i64], vc: usize, x: i64, y: i64) -> WindingAnswer
    ensures { result ≡ winding_answer outline.now vc x y }
{
    straight_entries::winding::entry(outline, vc, x, y)
}

// The doubled signed area of an outline, anticlockwise positive: its sign, and its size in two words.
pub fn mask_straight_area(outline: &[i64], vc: usize) -> AreaAnswer
    ensures { result ≡ area_answer outline.now vc }
{
    straight_entries::area::entry(outline, vc)
}

// The report on outlines whose vertices lie one outline after the other: how many, how many with area zero, and the total of the absolute doubled areas.
pub fn mask_straight_report(points: &[i64], ends: &[usize], loops: usize) -> ReportAnswer
    ensures { result ≡ report_answer points.now ends.now loops }
{
    straight_entries::report::entry(points, ends, loops)
}
