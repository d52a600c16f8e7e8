// The layout of a saved state in both forms: where its bodies stand, a file written from them, and what stands in a
// file. These functions are `pub` for the crates of saved states: internal, not calls of the library.
#![tactic(auto)]

pub mod bodies;
pub mod contents;
pub mod places;

// The forms of a file: 1 has no sums and no lines and timer, 2 has both.
#[derive(Clone, Copy)]
pub enum Form {
    One,
    Two,
}
