// The gauge's readings drawn one over the other, each step watched: the screen after it is compared with the reading drawn alone.
#![tactic(auto)]

pub mod check;
pub mod step;
pub mod values;
