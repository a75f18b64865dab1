// Filling a box of the framebuffer with one colour.
ghost use Rattle.std.specs.Prelude.{◌≡◌, pos, ◌+ℤ◌, length};
ghost use Rattle.definitions.specs.Vocabulary.{Some};
ghost use Rattle.definitions.specs.Framebuffer.{shown, BufferFits};
ghost use Rattle.framebuffer.specs.Areas.{clamped, area, AreaFits, fill_picture};

use crate::clamp;
use crate::line::{Line, fill_line};
use std::ops::Range;
use types::framebuffer::Framebuffer;
use types::geometry::{Point, Rectangle, Size};

// Of so many columns from `start` on, those that a framebuffer of the width `limit` shows. Rows go the same way, by the height. In
// 64 bits every end is a number.
fn shown_range(start: i32, len: u32, limit: usize) -> Range<usize>
    ensures start { result.start ≡ clamped start limit }
    ensures end { result.end ≡ clamped (start +ℤ pos len) limit }
{
    let start = i64::from(start);
    clamp(start, limit)..clamp(start + i64::from(len), limit)
}

// Fills the rows of an area of which every pixel is on the framebuffer.
fn fill_rows(
    columns: Range<usize>,
    rows: Range<usize>,
    color: u8,
    framebuffer: Framebuffer,
    buffer: &mut [u8],
)
    requires { AreaFits (length buffer.old) framebuffer columns.start columns.end rows.start rows.end }
    ensures { buffer.new ≡ shown framebuffer (fill_picture color
        (Some (area columns.start columns.end rows.start rows.end))) buffer.old }
{
    for row in rows {
        let line = Line::new(framebuffer, row, columns.start, columns.end - columns.start);
        fill_line(color, framebuffer, line, &mut buffer[..]);
    }
}

// Fills a rectangle. What lies off the framebuffer is dropped.
fn fill_rectangle(rectangle: Rectangle, color: u8, framebuffer: Framebuffer, buffer: &mut [u8])
    requires { BufferFits (length buffer.old) framebuffer }
    ensures { buffer.new ≡ shown framebuffer (fill_picture color (Some rectangle))
        buffer.old }
{
    let Point { x, y } = rectangle.top_left;
    let Size { width, height } = rectangle.size;
    let columns = shown_range(x, width, framebuffer.width);
    let rows = shown_range(y, height, framebuffer.height);
    fill_rows(columns, rows, color, framebuffer, buffer);
}

pub fn fill_box(
    bounding_box: Option<Rectangle>,
    color: u8,
    framebuffer: Framebuffer,
    buffer: &mut [u8],
)
    requires { BufferFits (length buffer.old) framebuffer }
    ensures { buffer.new ≡ shown framebuffer (fill_picture color bounding_box)
        buffer.old }
{
    if let Some(rectangle) = bounding_box {
        fill_rectangle(rectangle, color, framebuffer, buffer);
    }
}
