// The types of the calls: what they are handed and what they answer. The names are those of the
// Rust library u8g2-fonts where it has a counterpart. There is no code here.
#![tactic(auto)]

pub mod error;
pub mod font_reader;
pub mod framebuffer;
pub mod geometry;
pub mod glyph_reader;
pub mod place;
pub mod results;
pub mod steps;
pub mod style;
