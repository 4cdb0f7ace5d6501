// The entry `mask_area_pass`: the area pass by the limit of a setting.
ghost use Rattle.settings.specs.Settings.{held};
ghost use Rattle.named_entries.specs.NamedArea.{NamedArea};

use crate::known;
use basis::answer;
use basis::answer::CountAnswer;
use basis::refuse::Refusal;

// The numbers of the loops whose area, without its sign, is not below the setting's limit, in order.
pub fn entry(
    areas: &[f64],
    loops: usize,
    entered: &[usize],
    settings: &[f64],
    setting: usize,
    kept: &mut [usize],
) -> CountAnswer
    ensures { NamedArea (held entered.now settings.now) setting areas.now loops kept.old result kept.new }
{
    if settings::bad_lengths(entered, settings) {
        return answer::count_refused(Refusal::Length.number());
    }
    let s = settings::ask(entered, settings, setting);
    let given = area_entries::areas::entry(areas, loops, s.area_limit, kept);
    if known::is_unknown(entered, setting, given.refusal) {
        return answer::count_refused(Refusal::UnknownSetting.number());
    }
    given
}
