// Draws every angle from -45.0 to +45.0 in the font font.bin, each over the one before, compares each with the angle drawn alone,
// and writes the pictures of all to sheet.cells. The arguments are, in any order, an anchor, an alignment, a place, narrow, which
// fills one column too few, and packed, with which a byte of the framebuffers holds eight pixels.
#![tactic(auto)]

use sheet_options::read;
use sheet_program::program::start;

fn main(rt: HostRuntime) {
    match read(&rt) {
        Ok(options) => start(&rt, b"font.bin", options),
        Err(wrong) => {
            let _ = println!(rt; "{wrong}");
        }
    }
}
