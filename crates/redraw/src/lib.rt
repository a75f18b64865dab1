// A reading drawn over the one before: what the gauge does.
#![tactic(auto)]

pub mod reading;
