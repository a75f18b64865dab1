// The values that cross the boundary to C: replies and a header's values that come out.
#![tactic(auto)]

pub mod header;
pub mod reply;
