// The measuring program at its limits. The fonts are font T and zeros, 65,536 and 65,537 bytes long; the
// texts are `-4` again and again, 4,096 and 4,097 bytes long; and one font file is missing.
#![tactic(auto)]

use measure_program::measure_file;
use std::rt::Files;
use system::opened;

// Measures the text of one file in the font of another.
fn measure<R: Files + Print + Eprint + Alloc>(rt: &R, font: &[u8], text: &[u8]) {
    if let Some(mut input) = opened(rt, text) {
        measure_file(rt, font, &mut input);
    }
}

fn main(rt: HostRuntime) {
    let rt = &rt;
    measure(rt, b"longest.bin", b"longest.txt");
    measure(rt, b"too_long.bin", b"longest.txt");
    measure(rt, b"longest.bin", b"too_long.txt");
    measure(rt, b"missing.bin", b"longest.txt");
}
