// Drawing a glyph from its runs (SPECIFICATION, Runs). A glyph is drawn only after its runs were read to the last pixel, so a
// font that ends too early draws none of it.
#![tactic(auto)]

ghost use Rattle.std.specs.Prelude.{◌≡◌, length};
ghost use Rattle.definitions.specs.Font.{u8g2, pixels_of};
ghost use Rattle.definitions.specs.Framebuffer.{shown};
ghost use Rattle.definitions.specs.Picture.{box_picture};
ghost use Rattle.glyph_renderer.specs.Drawing.{GlyphDrawable};

use font_reader::opened::OpenedFont;
use framebuffer::fill::fill_box;
use rows::draw_rows;
use types::framebuffer::Framebuffer;
use types::geometry::Rectangle;
use types::glyph_reader::GlyphReader;
use types::style::FontColor;
use visible_part::get_visible_part;

// Draws a glyph whose runs were checked, which cannot fail. A background is filled first, and the ones are drawn on it. Of a
// glyph beside, above or below the framebuffer nothing is read.
pub fn render_glyph(
    font: &OpenedFont,
    glyph: GlyphReader,
    bounding_box: Option<Rectangle>,
    color: FontColor,
    framebuffer: Framebuffer,
    buffer: &mut [u8],
)
    requires { GlyphDrawable font.now.bytes.now font.now.head glyph bounding_box framebuffer (length buffer.old) }
    ensures { buffer.new ≡ shown framebuffer (box_picture color
        (pixels_of (u8g2 font.now.bytes.now) glyph) bounding_box) buffer.old }
{
    let Some(area) = bounding_box else {
        return;
    };
    let part = get_visible_part(area.top_left, glyph, framebuffer);
    if part.columns.is_empty() || part.rows.is_empty() {
        return;
    }
    let value = match color {
        FontColor::Transparent(fg) => fg,
        FontColor::WithBackground { fg, bg } => {
            fill_box(bounding_box, bg, framebuffer, &mut buffer[..]);
            fg
        }
    };
    draw_rows(font, glyph, part, value, framebuffer, buffer);
}
