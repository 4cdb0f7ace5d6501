#![tactic(auto)]
// The entries over the verdict on view data: what is refused, then one call down. The crate `mask` exports them.
pub mod reopen;
pub mod validate;
