// A file's bytes: halfwords and words in them, parts put over a buffer, compared and summed.
// These functions are `pub` for the crates of saved states: internal, not calls of the library.
#![tactic(auto)]

pub mod numbers;
pub mod parts;
