#![tactic(auto, unfolding(crate::specs::Settings::lengths_fault, crate::specs::Settings::count_of, crate::specs::Settings::full, crate::specs::Settings::known, crate::specs::Settings::setting_at, crate::specs::Settings::asked_of))]
// Request K7: settings by edition. Up to 16 settings, each with both tolerances and the area limit, in one record that is extended and never overwritten.
//
// The record is two lists that the host lends and keeps: how many settings there are, one number, and 48 numbers, three a setting. Every content of the two
// lists is some record, and zeros are the empty one. Editions count from 1.
ghost use Rattle.std.specs.Prelude.{◌≡◌, get_or};
ghost use Rattle.basis.specs.Number.{+0};
ghost use Rattle.settings.specs.Settings.{held, lengths_fault, count_of, full, known, setting_at, asked_of, none, written, Place, Space, Open, Entered};

// The most settings that a record has.
pub const MOST_SETTINGS: usize = 16;

// Both tolerances and the area limit.
#[derive(Clone, Copy)]
pub struct Setting {
    pub tolerance_x: f64,
    pub tolerance_y: f64,
    pub area_limit: f64,
}

// The numbers of a record: three a setting.
const NUMBERS: usize = 48;

// Number 1: the lists are not those of a record, which are one number and 48.
pub fn bad_lengths(entered: &[usize], settings: &[f64]) -> bool
    ensures { result ≡ lengths_fault (held entered.now settings.now) }
{
    entered.len() != 1 || settings.len() != NUMBERS
}

// How many settings there are. A number above 16 reads as 16.
pub fn count(entered: &[usize]) -> usize
    ensures { result ≡ count_of entered.now }
{
    match entered.first() {
        Some(n) => (*n).min(MOST_SETTINGS),
        None => 0,
    }
}

// Whether the record takes no further setting.
pub fn is_full(entered: &[usize]) -> bool
    ensures { result ≡ full entered.now }
{
    count(entered) == MOST_SETTINGS
}

// Whether a setting was entered under the edition.
pub fn is_known(entered: &[usize], edition: usize) -> bool
    ensures { result ≡ known entered.now edition }
{
    0 < edition && edition <= count(entered)
}

// The number at a place, and +0 past the list's end.
fn number_at(settings: &[f64], at: usize) -> f64
    ensures { result ≡ get_or settings.now at +0 }
{
    settings.get(at).copied().unwrap_or(0.0)
}

// The three numbers of setting `k`, from 0.
fn setting_at(settings: &[f64], k: usize) -> Setting
    requires { Place k }
    ensures { result ≡ setting_at settings.now k }
{
    Setting {
        tolerance_x: number_at(settings, 3 * k),
        tolerance_y: number_at(settings, 3 * k + 1),
        area_limit: number_at(settings, 3 * k + 2),
    }
}

// No setting: each of its numbers is out of range. No Option: a call that names a setting refuses an unknown one where number 4 stands, among its other rows.
fn no_setting() -> Setting
    ensures { result ≡ none }
{
    Setting {
        tolerance_x: -1.0,
        tolerance_y: -1.0,
        area_limit: -1.0,
    }
}

// The setting that was entered under the edition, and where none was, numbers that number 4 refuses.
pub fn ask(entered: &[usize], settings: &[f64], edition: usize) -> Setting
    ensures { result ≡ asked_of (held entered.now settings.now) edition }
{
    if is_known(entered, edition) {
        setting_at(settings, edition - 1)
    } else {
        no_setting()
    }
}

// Writes the three numbers of setting `k`.
#[tactic(auto, using(crate::proofs::Reading::stores))]
fn put(settings: &mut [f64], k: usize, s: Setting)
    requires { Space settings.old k }
    ensures { settings.new ≡ written settings.old k s }
{
    settings[3 * k] = s.tolerance_x;
    settings[3 * k + 1] = s.tolerance_y;
    settings[3 * k + 2] = s.area_limit;
}

// Writes a setting after those that are there, and says under which edition.
#[tactic(auto, unfolding(crate::specs::Settings::extended))]
pub fn enter(entered: &mut [usize], settings: &mut [f64], s: Setting) -> usize
    requires { Open (held entered.old settings.old) }
    ensures { Entered (held entered.old settings.old) s result (held entered.new settings.new) }
{
    let n = count(entered);
    put(settings, n, s);
    entered[0] = n + 1;
    n + 1
}
