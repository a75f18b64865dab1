// The measuring program (SPECIFICATION, Measuring program): it reads a font and a text and prints
// the line.
#![tactic(auto)]

ghost use Rattle.std.specs.Prelude.{◌≡◌, ◌≤◌, List, ℕ, length, take};
ghost use Rattle.measure_line.specs.Measured.{measuring_line};
ghost use Rattle.measure_program.specs.Filled.{Filled};

use answer_line::LINE_ROOM;
use measure_line::measure_line;
use numbers::text::Text;
use std::io::Read;
use std::rt::Files;
use system::{open_read, read_start};

// Room for a byte more than is allowed, so that what is too long is seen.
const FONT_ROOM: usize = 65_537;

const TEXT_ROOM: usize = 4_097;

// Reads the font to the buffer's start, and answers how many bytes there are. A file that is missing or cannot be read is an
// empty font.
fn read_font<R: Files>(rt: &R, path: &[u8], font: &mut [u8; FONT_ROOM]) -> usize
    ensures { result ≤ FONT_ROOM }
{
    match open_read(rt, path) {
        Ok(mut file) => read_start(&mut file, font).0,
        Err(_) => 0,
    }
}

fn read_text<I: Read>(input: &mut I, text: &mut [u8; TEXT_ROOM]) -> usize
    ensures { result ≤ TEXT_ROOM }
{
    read_start(input, text).0
}

// The line of a font file and an input, each of any length. `font` and `text` are what there was room for.
#[tactic(auto, using(crate::proofs::FilledLaws::files_line))]
fn measure_read(font: &[u8], text: &[u8]) -> Text<LINE_ROOM>
    ensures { (file input : List ℕ) → Filled FONT_ROOM file font.now → Filled TEXT_ROOM input text.now
        → result ≡ measuring_line file input }
{
    measure_line(font, text)
}

// The same of the buffers themselves, which have that room: the first n bytes of `font` and k of `text` are what could be read.
fn measure_buffers(
    font: &[u8; FONT_ROOM],
    n: usize,
    text: &[u8; TEXT_ROOM],
    k: usize,
) -> Text<LINE_ROOM>
    requires { n ≤ length font.now × k ≤ length text.now }
    ensures { (file input : List ℕ) → Filled (length font.now) file (take n font.now)
        → Filled (length text.now) input (take k text.now) → result ≡ measuring_line file input }
{
    measure_read(&font[..n], &text[..k])
}

// Measures the text that comes from `input` in the font of that path.
pub fn measure_file<R: Files + Print, I: Read>(rt: &R, path: &[u8], input: &mut I) {
    let mut font = [0u8; FONT_ROOM];
    let n = read_font(rt, path, &mut font);
    let mut text = [0u8; TEXT_ROOM];
    let k = read_text(input, &mut text);
    let line = measure_buffers(&font, n, &text, k);
    let _ = rt.write_all(line.as_bytes());
}
