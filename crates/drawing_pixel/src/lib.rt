// The picture: what a pixel is (specs/), and the reads of VRAM and of the records that it is made of.
// These functions are `pub` for the crates that paint: internal, not calls of the library.
#![tactic(auto)]

pub mod character;
pub mod field;
pub mod object;
pub mod paint;
pub mod world;
