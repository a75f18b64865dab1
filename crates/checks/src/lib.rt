// What a call checks of its input, and where its text begins.
#![tactic(auto)]

pub mod limits;
pub mod origin;
