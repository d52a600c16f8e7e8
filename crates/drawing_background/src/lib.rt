// Background worlds: paints what a normal, H-bias or affine world shows of a strip over what is there.
// `world`, `cell` and `source` are `pub` for the crates above; none of their functions is a call of the library's
// users.
#![tactic(auto)]

mod affine;
pub mod cell;
mod ink;
mod paint;
pub mod source;
pub mod world;
