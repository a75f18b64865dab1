// The sheet as a program: every reading drawn over the one before and compared, to the totals.
#![tactic(auto)]

mod cells;
pub mod program;
pub mod run;
pub mod values;
