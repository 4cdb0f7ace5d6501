// Settings by edition.
ghost use Rattle.std.specs.Prelude.{◌≡◌};
ghost use Rattle.settings.specs.Settings.{held};
ghost use Rattle.settings_entries.specs.SettingsEntry.{setting_of, EnterLeft, ask_answer};

use settings_entries::answer::{EditionAnswer, SettingAnswer};

// A setting entered into the record, after those that are there: its edition.
pub fn mask_settings_enter(
    entered: &mut [usize],
    settings: &mut [f64],
    tolerance_x: f64,
    tolerance_y: f64,
    area_limit: f64,
) -> EditionAnswer
    ensures { EnterLeft (held entered.old settings.old) (setting_of tolerance_x tolerance_y area_limit) result (held entered.new settings.new) }
{
    settings_entries::enter::entry(entered, settings, tolerance_x, tolerance_y, area_limit)
}

// The setting of an edition, exactly as it was entered.
pub fn mask_settings_ask(entered: &[usize], settings: &[f64], edition: usize) -> SettingAnswer
    ensures { result ≡ ask_answer (held entered.now settings.now) edition }
{
    settings_entries::ask::entry(entered, settings, edition)
}
