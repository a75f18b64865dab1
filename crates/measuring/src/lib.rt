// The public calls that measure. Each takes the font's bytes and checks all of its input: none has a `requires`.
#![tactic(auto)]

pub mod aligned_dimensions;
pub mod font_bounding_box;
pub mod rendered_dimensions;
pub mod rendered_dimensions_aligned;
