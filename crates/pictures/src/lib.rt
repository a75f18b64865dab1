// A text as a picture: on a framebuffer of its own, where all of it is seen.
#![tactic(auto)]

pub mod whole;
