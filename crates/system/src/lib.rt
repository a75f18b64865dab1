// What the programs ask of the system, over std: files by their names, an input read to its end, the arguments, and the line that
// says what failed.
#![tactic(auto)]

mod command_line;
mod files;
mod reading;

pub use command_line::{Args, Word, arguments};
pub use files::{open_overwrite, open_read, opened};
pub use reading::{Stopped, fill, read_full, read_start};
use std::io::Error;
use std::str;

// The words of an error: std puts errno's number behind the system's own.
fn words_of(said: &str) -> &str {
    said.split_once(" (os error ")
        .map_or(said, |(words, _)| words)
}

// Writes a line to standard error: what failed, as the caller names it, a colon and the system's words for the error.
pub fn fail<R: Eprint + Alloc>(rt: &R, what: &[u8], error: Error) {
    let name = str::from_utf8(what).unwrap_or("a name that is not UTF-8");
    match format!(in rt.alloc(); "{error}") {
        Ok(said) => {
            let words = words_of(said.as_str());
            let _ = eprintln!(rt; "{name}: {words}");
        }
        // no memory for the words alone
        Err(_) => {
            let _ = eprintln!(rt; "{name}: {error}");
        }
    }
}
