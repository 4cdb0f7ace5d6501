#![tactic(auto)]
// Fields of bytes, little endian: one field, the fields of a shape, rows of one shape; and numbers as their bit patterns.
pub mod copy;
pub mod field;
pub mod shape;
