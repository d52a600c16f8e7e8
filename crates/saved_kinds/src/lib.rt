// What a file may hold: its form, the pak RAM's length, which follows from the file's, and whether each body is one
// that a writer makes. These functions are `pub` for the crates of saved states: internal, not calls of the library.
#![tactic(auto)]

pub mod bodies;
pub mod lengths;
pub mod words;
