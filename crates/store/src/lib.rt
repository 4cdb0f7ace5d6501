#![tactic(auto)]
// Slices kept between runs, document 02, K9: what a store is, and its marks.
//
// The store is four lists that the host lends: of each place a mark, four codes, six numbers and an edition. Every content of the lists is
// some store; zeros are the empty one. The marks hold the order put, so a put moves no slice.
pub mod bytes;
pub mod copies;
pub mod marks;
