// What the font answers to each character, and how a text is counted.
#![tactic(auto)]

pub mod render_actions;
pub mod steps;
