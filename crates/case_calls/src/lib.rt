// The call that a stored case asks for, and its answer, printed. The program replay is over this.
#![tactic(auto)]

pub mod case;
pub mod request;
