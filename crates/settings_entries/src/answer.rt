// What the entries answer: flat, by value. On a refusal all but its number is 0.
ghost use Rattle.std.specs.Prelude.{◌≡◌};
ghost use Rattle.settings_entries.specs.Answers.{edition_refused, edition_given, setting_refused, setting_given};

use settings::Setting;

#[repr(C)]
#[derive(Clone, Copy)]
pub struct EditionAnswer {
    pub refusal: u32,
    pub edition: usize,
}

#[repr(C)]
#[derive(Clone, Copy)]
pub struct SettingAnswer {
    pub refusal: u32,
    pub tolerance_x: f64,
    pub tolerance_y: f64,
    pub area_limit: f64,
}

pub(crate) fn edition_refused(number: u32) -> EditionAnswer
    ensures { result ≡ edition_refused number }
{
    EditionAnswer {
        refusal: number,
        edition: 0,
    }
}

pub(crate) fn edition_given(edition: usize) -> EditionAnswer
    ensures { result ≡ edition_given edition }
{
    EditionAnswer {
        refusal: 0,
        edition,
    }
}

pub(crate) fn setting_refused(number: u32) -> SettingAnswer
    ensures { result ≡ setting_refused number }
{
    SettingAnswer {
        refusal: number,
        tolerance_x: 0.0,
        tolerance_y: 0.0,
        area_limit: 0.0,
    }
}

pub(crate) fn setting_given(s: Setting) -> SettingAnswer
    ensures { result ≡ setting_given s }
{
    SettingAnswer {
        refusal: 0,
        tolerance_x: s.tolerance_x,
        tolerance_y: s.tolerance_y,
        area_limit: s.area_limit,
    }
}
