// The colours, which are grey values, and the characters that show them.
#![tactic(auto)]

ghost use Rattle.std.specs.Prelude.{◌≡◌, ◌≤◌, false, length, map};
ghost use Rattle.definitions.specs.Limits.{color_off};
ghost use Rattle.picture_text.specs.Marks.{ground_of, ink_of, shade};
ghost use Rattle.picture_text.specs.Marks.{IsPicture};

use numbers::text::Text;
use types::framebuffer::PixelFormat;
use types::style::FontColor;

const INK: u8 = 0;

const GROUND: u8 = 192;

pub const EMPTY: u8 = 255;

// The widest picture.
const WIDEST: usize = 256;

// Its row as a line.
const LINE_ROOM: usize = WIDEST + 1;

// The ground behind the glyphs. A packed framebuffer has one colour beside the ink's.
fn ground(format: PixelFormat) -> u8
    ensures { result ≡ ground_of format }
{
    match format {
        PixelFormat::Bytes => GROUND,
        PixelFormat::Packed => 1,
    }
}

pub fn color(format: PixelFormat, background: bool) -> FontColor
    ensures color { result ≡ ink_of format background }
    ensures held { color_off format result ≡ false }
{
    if background {
        FontColor::WithBackground {
            fg: INK,
            bg: ground(format),
        }
    } else {
        FontColor::Transparent(INK)
    }
}

// '#' where the ink is, ':' on a glyph's background, '.' elsewhere.
fn mark(pixel: u8) -> u8
    ensures { result ≡ shade pixel }
{
    match pixel {
        INK => b'#',
        GROUND => b':',
        _ => b'.',
    }
}

// The characters that show a row's pixels. They are stored by number, so that many go at once: pushed, each takes 14 instructions.
fn marks(row: &[u8]) -> Text<LINE_ROOM>
    requires { length row.now ≤ WIDEST }
    ensures { result ≡ map shade row.now }
{
    let mut bytes = [0u8; LINE_ROOM];
    for (i, pixel) in row.iter().enumerate() {
        bytes[i] = mark(*pixel);
    }
    Text::of_buffer(bytes, row.len())
}

// By the row's number: a picture without columns has its rows too. Each is one write: a formatter would take a character at a time.
pub fn print_rows<R: Print>(rt: &R, pixels: &[u8], width: usize, height: usize)
    requires { IsPicture width height (length pixels.now) }
{
    for y in 0..height {
        let start = y * width;
        let mut line = marks(&pixels[start..start + width]);
        line.push(b'\n');
        let _ = rt.write_all(line.as_bytes());
    }
}
