// The ones of a glyph, drawn on the framebuffer.
#![tactic(auto)]

ghost use Rattle.std.specs.Prelude.{◌≡◌, length};
ghost use Rattle.definitions.specs.Font.{u8g2, pixels_of};
ghost use Rattle.definitions.specs.Framebuffer.{shown};
ghost use Rattle.rows.specs.Ones.{PartDrawable, ones_picture};

use font_reader::opened::OpenedFont;
use framebuffer::line::{Line, fill_columns};
use runs::run_reader::RunReader;
use runs::seek;
use types::framebuffer::{Framebuffer, PixelFormat};
use types::glyph_reader::GlyphReader;
use visible_part::VisiblePart;

// The framebuffer, of which the compiler then knows the format.
#[inline(always)]
fn of_format(format: PixelFormat, framebuffer: Framebuffer) -> Framebuffer
    requires { framebuffer.format ≡ format }
    ensures { result ≡ framebuffer }
{
    Framebuffer {
        format,
        ..framebuffer
    }
}

// Draws the ones of the visible part of a glyph whose runs were checked. A pair's ones go from a column to before another, both
// counted from the current row's first column: from the glyph's width on they lie in later rows. Pairs before the first visible
// row are passed over whole, and nothing is read after the last visible row. Neither loop goes over a range: rows end within pairs,
// and pairs within rows.
#[inline(always)]
fn draw_pairs(
    font: &OpenedFont,
    glyph: GlyphReader,
    part: VisiblePart,
    value: u8,
    framebuffer: Framebuffer,
    buffer: &mut [u8],
)
    requires { PartDrawable font.now.bytes.now font.now.head glyph part framebuffer (length buffer.old) }
    ensures { buffer.new ≡ shown framebuffer (ones_picture (pixels_of (u8g2 font.now.bytes.now) glyph)
        glyph part value) buffer.old }
{
    let reader = RunReader::new(font);
    let glyph_width = usize::from(glyph.glyph_width);
    let visible = part.columns.end - part.columns.start;
    let start = seek(font, glyph, part.rows.start * glyph_width);
    let mut runs = start.runs;
    let mut from = runs.zeros.saturating_sub(start.offset);
    let mut to = runs.count() - start.offset;
    let mut line = Line::new(framebuffer, part.top, part.left, visible);
    let bottom = part.top + (part.rows.end - part.rows.start);
    'pairs: loop {
        // the rows that the pair reaches the end of
        while glyph_width <= to {
            fill_columns(
                part.columns.start,
                from,
                glyph_width,
                value,
                framebuffer,
                line,
                &mut buffer[..],
            );
            from = from.saturating_sub(glyph_width);
            to -= glyph_width;
            let below = line.row + 1;
            if below == bottom {
                break 'pairs;
            }
            line = Line::new(framebuffer, below, part.left, visible);
        }
        fill_columns(
            part.columns.start,
            from,
            to,
            value,
            framebuffer,
            line,
            &mut buffer[..],
        );
        runs = reader.next_pair(runs);
        from = to + runs.zeros;
        to = from + runs.ones;
    }
}

// The same, for each format by itself: a loop that asks for it takes 7 instructions more in each row.
pub fn draw_rows(
    font: &OpenedFont,
    glyph: GlyphReader,
    part: VisiblePart,
    value: u8,
    framebuffer: Framebuffer,
    buffer: &mut [u8],
)
    requires { PartDrawable font.now.bytes.now font.now.head glyph part framebuffer (length buffer.old) }
    ensures { buffer.new ≡ shown framebuffer (ones_picture (pixels_of (u8g2 font.now.bytes.now) glyph)
        glyph part value) buffer.old }
{
    match framebuffer.format {
        PixelFormat::Bytes => {
            let framebuffer = of_format(PixelFormat::Bytes, framebuffer);
            draw_pairs(font, glyph, part, value, framebuffer, buffer);
        }
        PixelFormat::Packed => {
            let framebuffer = of_format(PixelFormat::Packed, framebuffer);
            draw_pairs(font, glyph, part, value, framebuffer, buffer);
        }
    }
}
