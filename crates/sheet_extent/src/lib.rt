// Where the sheet's readings stand: the edges of all of them, a place and a framebuffer.
#![tactic(auto)]

pub mod extent;
pub mod place;
pub mod values;
