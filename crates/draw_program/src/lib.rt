// The drawing program, from the text to its picture. The programs draw and draw_runs are over this.
#![tactic(auto)]

pub mod program;
