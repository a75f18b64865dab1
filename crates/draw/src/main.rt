// Draws the text of standard input in the font font.bin: the answer's line, and then the picture as text, or with the argument
// `pgm` as an image in the file draw.pgm; with the argument `background` the glyphs have a background colour, with `packed` a byte of
// the framebuffer holds eight pixels, and with `left`, `center` or `right` the lines are aligned.
#![tactic(auto)]

use draw_options::read;
use draw_program::program::start;

fn main(rt: HostRuntime) {
    start(&rt, read(&rt), &mut rt.reader());
}
