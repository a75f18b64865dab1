// The visible part of a row, filled, or a stretch of it.
ghost use Rattle.std.specs.Prelude.{◌≡◌, ◌/◌, ◌%◌, length};
ghost use Rattle.definitions.specs.Vocabulary.{Some};
ghost use Rattle.definitions.specs.Framebuffer.{per_byte, shown};
ghost use Rattle.framebuffer.specs.Areas.{fill_picture};
ghost use Rattle.framebuffer.specs.Lines.{RowFits, line_at, LineFits, line_area, stretch};

use crate::row_writers::{fill_all_bits, fill_bits, fill_bytes};
use types::framebuffer::{Framebuffer, PixelFormat};

// So many columns of a row, from `left` on. The byte `start` holds the first of them, each byte from there on the next, as its
// pixel of that number from the top.
#[derive(Clone, Copy, Debug, PartialEq, Eq)]
pub struct Line {
    pub row: usize,
    pub left: usize,
    pub columns: usize,
    pub start: usize,
    pub pixel: usize,
}

// Which row of bytes holds a row of pixels, and as which pixel from the top.
fn locate(format: PixelFormat, row: usize) -> (usize, usize)
    ensures byte_row { result.0 ≡ row / per_byte format }
    ensures pixel { result.1 ≡ row % per_byte format }
{
    match format {
        PixelFormat::Bytes => (row, 0),
        PixelFormat::Packed => (row / 8, row % 8),
    }
}

impl Line {
    pub fn new(framebuffer: Framebuffer, row: usize, left: usize, columns: usize) -> Line
        requires { RowFits framebuffer row left columns }
        ensures { result ≡ line_at framebuffer row left columns }
    {
        let (byte_row, pixel) = locate(framebuffer.format, row);
        Line {
            row,
            left,
            columns,
            start: byte_row * framebuffer.width + left,
            pixel,
        }
    }
}

// Fills the columns of a glyph's row from `from` to before `to`; the line is its visible part, which begins at the column `first`.
pub fn fill_columns(
    first: usize,
    from: usize,
    to: usize,
    value: u8,
    framebuffer: Framebuffer,
    line: Line,
    buffer: &mut [u8],
)
    requires { LineFits (length buffer.old) framebuffer line }
    ensures { buffer.new ≡ shown framebuffer (fill_picture value (Some (stretch first from to line))) buffer.old }
{
    let part = &mut buffer[line.start..line.start + line.columns];
    match framebuffer.format {
        PixelFormat::Bytes => fill_bytes(first, from, to, value, part),
        PixelFormat::Packed => fill_bits(first, from, to, value, line.pixel, part),
    }
}

// Fills all of the line.
pub fn fill_line(value: u8, framebuffer: Framebuffer, line: Line, buffer: &mut [u8])
    requires { LineFits (length buffer.old) framebuffer line }
    ensures { buffer.new ≡ shown framebuffer (fill_picture value (Some (line_area line))) buffer.old }
{
    let part = &mut buffer[line.start..line.start + line.columns];
    match framebuffer.format {
        PixelFormat::Bytes => part.fill(value),
        PixelFormat::Packed => fill_all_bits(value, line.pixel, part),
    }
}
