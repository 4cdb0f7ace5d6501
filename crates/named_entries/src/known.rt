// Number 16: the setting is unknown.
ghost use Rattle.std.specs.Prelude.{◌≡◌};
ghost use Rattle.named_entries.specs.Named.{unknown_fault};

use basis::refuse::Refusal;

// An unknown setting is out of range, which number 4 found: 16 stands before it. So the entries look before and behind the call that answers, and hand on its answer: `?` would be no plainer.
#[tactic(auto, using(basis::specs::Choice::cases), unfolding(crate::specs::Named::unknown_fault))]
pub(crate) fn is_unknown(entered: &[usize], setting: usize, number: u32) -> bool
    ensures { result ≡ unknown_fault entered.now setting number }
{
    number == Refusal::Tolerance.number() && !settings::is_known(entered, setting)
}
