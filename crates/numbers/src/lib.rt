// Text of a fixed capacity, and numbers in decimal in it.
#![tactic(auto)]

pub mod text;
