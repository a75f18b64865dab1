// Drawing a text on a framebuffer.
ghost use Rattle.std.specs.Prelude.{◌≡◌};
ghost use Rattle.definitions.specs.Refusals.{outcome};
ghost use Rattle.definitions.specs.Font.{u8g2};
ghost use Rattle.definitions.specs.Calls.{plain, draw, draw_buffer};
ghost use Rattle.definitions.specs.Sums.{sums};

use crate::aligned_drawing::aligned_drawing;
use types::framebuffer::Framebuffer;
use types::geometry::RenderedDimensions;
use types::results::Report;
use types::style::{FontStyle, HorizontalAlignment, Placement};

// Draws the text where it is placed on a framebuffer of that size, or refuses to; the steps of its lookups come with either. A call
// that is refused before the first letter leaves the framebuffer as it was.
pub fn render(
    font: &[u8],
    text: &[u8],
    placement: Placement,
    style: FontStyle,
    framebuffer: Framebuffer,
    buffer: &mut [u8],
) -> Report<RenderedDimensions>
    ensures answered { outcome result.result ≡ draw (u8g2 font.now)
        (plain text.now placement style.vertical_pos) style.color framebuffer buffer.old }
    ensures shown { buffer.new ≡ draw_buffer (u8g2 font.now)
        (plain text.now placement style.vertical_pos) style.color framebuffer buffer.old }
    ensures summed { result.steps ≡ sums (u8g2 font.now) text.now (draw (u8g2 font.now)
        (plain text.now placement style.vertical_pos) style.color framebuffer buffer.old) }
{
    aligned_drawing(
        font,
        text,
        placement,
        style,
        HorizontalAlignment::Left,
        framebuffer,
        buffer,
    )
}
