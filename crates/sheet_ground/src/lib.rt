// The readings of the sheet, and the ground that they are drawn on.
#![tactic(auto)]

pub mod ground;
pub mod texts;
