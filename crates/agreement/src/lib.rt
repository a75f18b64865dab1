// SPECIFICATION, Agreement, of the public calls themselves: two drawings of one text, and its measuring, agree; and one drawing leaves
// the same pixels in every format.
#![tactic(auto)]

pub mod aligned;
pub mod calls;
pub mod formats;
pub mod plain;
pub mod twice;
