// Drawing a text on a framebuffer, each of its lines aligned.
ghost use Rattle.std.specs.Prelude.{◌≡◌};
ghost use Rattle.definitions.specs.Refusals.{outcome};
ghost use Rattle.definitions.specs.Font.{u8g2};
ghost use Rattle.definitions.specs.Calls.{request, draw_buffer, draw_aligned};
ghost use Rattle.definitions.specs.Sums.{sums};

use crate::aligned_drawing::aligned_drawing;
use lookup_sums::box_alone;
use types::framebuffer::Framebuffer;
use types::geometry::Rectangle;
use types::results::Report;
use types::style::{FontStyle, HorizontalAlignment, Placement};

// Draws the aligned text, or refuses to, and answers with its bounding box, which is the one that aligned measuring answers; the
// steps of its lookups come with either. With Center and Right a line is measured before its first letter is drawn: a letter that
// stops it there leaves the framebuffer as the lines before drew it (SPECIFICATION, Refusals).
pub fn render_aligned(
    font: &[u8],
    text: &[u8],
    placement: Placement,
    style: FontStyle,
    horizontal_align: HorizontalAlignment,
    framebuffer: Framebuffer,
    buffer: &mut [u8],
) -> Report<Option<Rectangle>>
    ensures answered { outcome result.result ≡ draw_aligned (u8g2 font.now)
        (request text.now placement style.vertical_pos horizontal_align) style.color framebuffer buffer.old }
    ensures shown { buffer.new ≡ draw_buffer (u8g2 font.now)
        (request text.now placement style.vertical_pos horizontal_align) style.color framebuffer buffer.old }
    ensures summed { result.steps ≡ sums (u8g2 font.now) text.now (draw_aligned (u8g2 font.now)
        (request text.now placement style.vertical_pos horizontal_align) style.color framebuffer buffer.old) }
{
    box_alone(aligned_drawing(
        font,
        text,
        placement,
        style,
        horizontal_align,
        framebuffer,
        buffer,
    ))
}
