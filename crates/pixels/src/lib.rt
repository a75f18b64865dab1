// What the bytes of a framebuffer hold: how many pixels each, how many bytes there are, and the pixels, each in a byte of its own.
#![tactic(auto)]

pub mod size;
pub mod unpack;
