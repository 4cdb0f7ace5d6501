#![tactic(auto, unfolding(basis::specs::Refuse::first_of, crate::specs::SettingsEntry::ask_refusal))]
// The entry `mask_settings_ask`.
ghost use Rattle.std.specs.Prelude.{◌≡◌};
ghost use Rattle.basis.specs.Refusals.{found};
ghost use Rattle.settings.specs.Settings.{held};
ghost use Rattle.settings_entries.specs.SettingsEntry.{ask_refusal, ask_answer};

use crate::answer;
use crate::answer::SettingAnswer;
use basis::refuse;
use basis::refuse::Refusal;

fn refusal(entered: &[usize], settings: &[f64], edition: usize) -> Result<(), Refusal>
    ensures { found result ≡ ask_refusal (held entered.now settings.now) edition }
{
    refuse::when(settings::bad_lengths(entered, settings), Refusal::Length)?;
    refuse::when(
        !settings::is_known(entered, edition),
        Refusal::UnknownSetting,
    )
}

// The setting of an edition, as it was entered.
#[tactic(auto, unfolding(basis::specs::Refuse::answer, crate::specs::SettingsEntry::ask_answer))]
pub fn entry(entered: &[usize], settings: &[f64], edition: usize) -> SettingAnswer
    ensures { result ≡ ask_answer (held entered.now settings.now) edition }
{
    match refusal(entered, settings, edition) {
        Err(refusal) => answer::setting_refused(refusal.number()),
        Ok(()) => answer::setting_given(settings::ask(entered, settings, edition)),
    }
}
