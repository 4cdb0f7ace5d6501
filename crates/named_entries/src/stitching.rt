// The entry `mask_stitch`: the stitch by the tolerances of a setting.
ghost use Rattle.slice.specs.Editions.{editions};
ghost use Rattle.settings.specs.Settings.{held};
ghost use Rattle.stitch_run.specs.Stitch.{given, plan_of};
ghost use Rattle.stitch.specs.Lent.{lists};
ghost use Rattle.named_entries.specs.NamedStitch.{tolerance_in, NamedStitch};

use crate::known;
use basis::refuse::Refusal;
use stitch_entries::answer;
use stitch_entries::answer::StitchAnswer;

// The slices stitched into closed loops, by the setting's tolerances.
pub fn entry(
    outline1: &[f64],
    vc1: usize,
    edition1: u32,
    outline2: &[f64],
    vc2: usize,
    edition2: u32,
    slice_at: &[usize],
    slice: &[f64],
    slice_edition: &[u32],
    slices: usize,
    pline2: usize,
    pline1_overlapping: usize,
    pline2_overlapping: usize,
    selector: u32,
    entered: &[usize],
    settings: &[f64],
    setting: usize,
    room: &mut [f64],
    ends: &mut [usize],
    chain: &mut [usize],
    chain_ends: &mut [usize],
    chain_how: &mut [usize],
) -> StitchAnswer
    ensures { NamedStitch (held entered.now settings.now) setting (given outline1.now outline2.now slice_at.now slice.now (plan_of vc1 vc2 slices (record { pline2 = pline2; pline1_overlapping = pline1_overlapping; pline2_overlapping = pline2_overlapping }) selector (tolerance_in (held entered.now settings.now) setting))) (editions edition1 edition2 slice_edition.now) (lists room.old ends.old chain.old chain_ends.old chain_how.old) result (lists room.new ends.new chain.new chain_ends.new chain_how.new) }
{
    if settings::bad_lengths(entered, settings) {
        return answer::stitch_refused(Refusal::Length.number());
    }
    let s = settings::ask(entered, settings, setting);
    let given = stitch_entries::stitching::entry(
        outline1,
        vc1,
        edition1,
        outline2,
        vc2,
        edition2,
        slice_at,
        slice,
        slice_edition,
        slices,
        pline2,
        pline1_overlapping,
        pline2_overlapping,
        selector,
        s.tolerance_x,
        s.tolerance_y,
        room,
        ends,
        chain,
        chain_ends,
        chain_how,
    );
    if known::is_unknown(entered, setting, given.refusal) {
        return answer::stitch_refused(Refusal::UnknownSetting.number());
    }
    given
}
