#![tactic(auto)]
// What a slice is: its four codes, its six numbers, its edition; how it is read and written, and what is refused of it.
pub mod data;
pub mod edition;
pub mod faults;
pub mod read;
pub mod write;
