#![tactic(auto)]
// One slice of a mode written into lent room, and the rest of the room cleared.
pub mod put;
