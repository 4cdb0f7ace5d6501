// What the entries that write lists have in common: what they answer, and the settings that they are handed.
use crate::words;
use basis::answer::CountAnswer;

pub(crate) fn is_count_answer(w: &[usize], r: CountAnswer) -> bool {
    words::is_code(w, 0, r.refusal) && words::is(w, 1, r.count)
}

// The list of a record with one setting. Any numbers are some setting.
pub(crate) fn one_setting(tolerance: f64, limit: f64) -> [f64; 48] {
    let mut settings = [0.0; 48];
    settings[0] = tolerance;
    settings[1] = tolerance;
    settings[2] = limit;
    settings
}
