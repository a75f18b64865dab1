// The content of a text: its bytes taken as UTF-8, and its newlines.
#![tactic(auto)]

pub mod text;
