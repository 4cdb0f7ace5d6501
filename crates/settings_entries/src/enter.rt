#![tactic(auto, unfolding(basis::specs::Refuse::first_of, crate::specs::SettingsEntry::enter_refusal, crate::specs::SettingsEntry::setting_ok))]
// The entry `mask_settings_enter`.
ghost use Rattle.std.specs.Prelude.{◌≡◌};
ghost use Rattle.basis.specs.Refusals.{found};
ghost use Rattle.settings.specs.Settings.{held};
ghost use Rattle.settings_entries.specs.SettingsEntry.{setting_of, setting_ok, enter_refusal, EnterLeft};

use crate::answer;
use crate::answer::EditionAnswer;
use basis::number::Tolerance;
use basis::refuse::Refusal;
use basis::{number, refuse};
use settings::Setting;

// Number 4 where it fails: both tolerances and the area limit are in range.
fn good_setting(s: Setting) -> bool
    ensures { result ≡ setting_ok s }
{
    let t = Tolerance {
        x: s.tolerance_x,
        y: s.tolerance_y,
    };
    number::in_tolerance(t) & number::good_limit(s.area_limit)
}

fn refusal(entered: &[usize], settings: &[f64], s: Setting) -> Result<(), Refusal>
    ensures { found result ≡ enter_refusal (held entered.now settings.now) s }
{
    refuse::when(settings::bad_lengths(entered, settings), Refusal::Length)?;
    refuse::when(settings::is_full(entered), Refusal::SettingsFull)?;
    refuse::when(!good_setting(s), Refusal::Tolerance)
}

// A setting entered after those that are there: its edition.
#[tactic(auto, unfolding(basis::specs::Refuse::answer, crate::specs::SettingsEntry::enter_answer, crate::specs::SettingsEntry::enter_held))]
pub fn entry(
    entered: &mut [usize],
    settings: &mut [f64],
    tolerance_x: f64,
    tolerance_y: f64,
    area_limit: f64,
) -> EditionAnswer
    ensures { EnterLeft (held entered.old settings.old) (setting_of tolerance_x tolerance_y area_limit) result (held entered.new settings.new) }
{
    let s = Setting {
        tolerance_x,
        tolerance_y,
        area_limit,
    };
    match refusal(entered, settings, s) {
        Err(refusal) => answer::edition_refused(refusal.number()),
        Ok(()) => answer::edition_given(settings::enter(entered, settings, s)),
    }
}
