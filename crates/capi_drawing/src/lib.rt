// The C boundary of the image processor: drawing, characters, the bytes of a pixel and the display unit.
#![tactic(auto)]

pub mod brightness;
pub mod pictures;
pub mod pixel_bytes;
