// The stitch and the area pass. Each names a setting.
ghost use Rattle.settings.specs.Settings.{held};
ghost use Rattle.slice.specs.Editions.{editions};
ghost use Rattle.stitch_run.specs.Stitch.{given, plan_of};
ghost use Rattle.stitch.specs.Lent.{lists};
ghost use Rattle.named_entries.specs.NamedStitch.{tolerance_in, NamedStitch};
ghost use Rattle.named_entries.specs.NamedArea.{NamedArea};

use basis::answer::CountAnswer;
use stitch_entries::answer::StitchAnswer;

// The slices stitched into closed loops, by the setting's tolerances. Each slice must have the edition of its outline.
pub fn mask_stitch(
    outline1: &[f64],
    vc1: usize,
    edition1: u32,
    outline2: &[f64],
    vc2: usize,
    edition2: u32,
    slice_at: &[usize],
    slice: &[f64],
    slice_edition: &[u32],
    slices: usize,
    pline2: usize,
    pline1_overlapping: usize,
    pline2_overlapping: usize,
    selector: u32,
    entered: &[usize],
    settings: &[f64],
    setting: usize,
    room: &mut [f64],
    ends: &mut [usize],
    chain: &mut [usize],
    chain_ends: &mut [usize],
    chain_how: &mut [usize],
) -> StitchAnswer
    ensures { NamedStitch (held entered.now settings.now) setting (given outline1.now outline2.now slice_at.now slice.now (plan_of vc1 vc2 slices (record { pline2 = pline2; pline1_overlapping = pline1_overlapping; pline2_overlapping = pline2_overlapping }) selector (tolerance_in (held entered.now settings.now) setting))) (editions edition1 edition2 slice_edition.now) (lists room.old ends.old chain.old chain_ends.old chain_how.old) result (lists room.new ends.new chain.new chain_ends.new chain_how.new) }
{
    named_entries::stitching::entry(
        outline1,
        vc1,
        edition1,
        outline2,
        vc2,
        edition2,
        slice_at,
        slice,
        slice_edition,
        slices,
        pline2,
        pline1_overlapping,
        pline2_overlapping,
        selector,
        entered,
        settings,
        setting,
        room,
        ends,
        chain,
        chain_ends,
        chain_how,
    )
}

// The numbers of the loops whose area, without its sign, is not below the setting's limit, in order.
pub fn mask_area_pass(
    areas: &[f64],
    loops: usize,
    entered: &[usize],
    settings: &[f64],
    setting: usize,
    kept: &mut [usize],
) -> CountAnswer
    ensures { NamedArea (held entered.now settings.now) setting areas.now loops kept.old result kept.new }
{
    named_entries::areas::entry(areas, loops, entered, settings, setting, kept)
}
