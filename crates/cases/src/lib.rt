// The stored cases: the file that holds them, and how a case's framebuffer and a font's header are printed.
#![tactic(auto)]

pub mod framebuffers;
pub mod header;
pub mod reader;
