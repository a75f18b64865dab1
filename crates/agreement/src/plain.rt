// Plain calls, and their agreement.
ghost use Rattle.std.specs.Prelude.{◌≡◌};
ghost use Rattle.types.specs.declared.style.HorizontalAlignment.TheVariants.{Left};
ghost use Rattle.definitions.specs.Font.{u8g2};
ghost use Rattle.definitions.specs.Calls.{plain, measure};
ghost use Rattle.definitions.specs.Agreement.{drawn, on, results, plain_box, MeasuredAsDrawn};
ghost use Rattle.definitions.proofs.Agreement.{agreement};
ghost use Rattle.definitions.proofs.UnpackLaws.{drawn_alike};
ghost use Rattle.agreement.specs.Calls.{as_results};
ghost use Rattle.agreement.specs.Formats.{as_both, both_by, BothAlike};

use crate::calls::Calls;
use crate::formats::{InBoth, draw_in_both_formats_by};
use crate::twice::{Answers, draw_twice_and_measure_by};
use measuring::rendered_dimensions::get_rendered_dimensions;
use renderer::render::render;
use types::framebuffer::Framebuffer;
use types::geometry::RenderedDimensions;
use types::results::Report;
use types::style::{FontStyle, Placement, VerticalPosition};

// `render` and `get_rendered_dimensions`, which ask for Left.
#[derive(Clone, Copy, Debug, PartialEq, Eq)]
pub struct Plain;

impl Calls for Plain {
    type Answer = RenderedDimensions;

    ghost box_in = { plain_box };

    ghost align = { λ _. Left };

    ghost draws = { drawn };

    ghost measures = { measure };

    ghost agrees = { agreement };

    ghost unpacks = { drawn_alike };

    fn draw(
        &self,
        font: &[u8],
        text: &[u8],
        placement: Placement,
        style: FontStyle,
        framebuffer: Framebuffer,
        buffer: &mut [u8],
    ) -> Report<RenderedDimensions> {
        render(font, text, placement, style, framebuffer, buffer)
    }

    fn measure(
        &self,
        font: &[u8],
        text: &[u8],
        placement: Placement,
        vertical_pos: VerticalPosition,
    ) -> Report<RenderedDimensions> {
        get_rendered_dimensions(font, text, placement, vertical_pos)
    }
}

// Draws one text on two framebuffers, on each with a font of its own, and measures it with both fonts, by plain calls.
pub fn draw_twice_and_measure(
    first_font: &[u8],
    second_font: &[u8],
    text: &[u8],
    placement: Placement,
    style: FontStyle,
    first_framebuffer: Framebuffer,
    first_buffer: &mut [u8],
    second_framebuffer: Framebuffer,
    second_buffer: &mut [u8],
) -> Answers<RenderedDimensions>
    ensures called { as_results result first_buffer.new second_buffer.new ≡ results
        (u8g2 first_font.now) (u8g2 second_font.now)
        (plain text.now placement style.vertical_pos) style.color
        (on first_framebuffer first_buffer.old) (on second_framebuffer second_buffer.old) }
    ensures agree { MeasuredAsDrawn plain_box first_font.now second_font.now
        (plain text.now placement style.vertical_pos) (on first_framebuffer first_buffer.old)
        (on second_framebuffer second_buffer.old) (as_results result first_buffer.new
        second_buffer.new) }
{
    draw_twice_and_measure_by(
        &Plain,
        first_font,
        second_font,
        text,
        placement,
        style,
        first_framebuffer,
        first_buffer,
        second_framebuffer,
        second_buffer,
    )
}

// Draws one text on a framebuffer and on one of as many pixels in bytes, by plain calls.
pub fn draw_in_both_formats(
    font: &[u8],
    text: &[u8],
    placement: Placement,
    style: FontStyle,
    framebuffer: Framebuffer,
    buffer: &mut [u8],
    pixels: &mut [u8],
) -> InBoth<RenderedDimensions>
    ensures called { as_both result buffer.new pixels.new ≡ both_by drawn (u8g2 font.now)
        (plain text.now placement style.vertical_pos) style.color (on framebuffer buffer.old) pixels.old }
    ensures alike { BothAlike style.color (on framebuffer buffer.old) pixels.old result buffer.new pixels.new }
{
    draw_in_both_formats_by(
        &Plain,
        font,
        text,
        placement,
        style,
        framebuffer,
        buffer,
        pixels,
    )
}
