// The public calls that draw. They take the font's bytes and check all of their input: they have no `requires`.
#![tactic(auto)]

pub mod aligned_drawing;
pub mod letters;
pub mod lines;
pub mod render;
pub mod render_aligned;
