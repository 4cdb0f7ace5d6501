#![tactic(auto)]
// Laws alone: writing and reading a record undo each other, in every version.
