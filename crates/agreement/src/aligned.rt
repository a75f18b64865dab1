// Aligned calls, and their agreement for every alignment.
ghost use Rattle.std.specs.Prelude.{◌≡◌};
ghost use Rattle.definitions.specs.Font.{u8g2};
ghost use Rattle.definitions.specs.Calls.{request, draw_aligned, measure_aligned};
ghost use Rattle.definitions.specs.Agreement.{on, aligned_results, aligned_box, MeasuredAsDrawn};
ghost use Rattle.definitions.proofs.AlignedLaws.{aligned_agreement};
ghost use Rattle.definitions.proofs.UnpackLaws.{aligned_drawn_alike};
ghost use Rattle.agreement.specs.Calls.{as_results};
ghost use Rattle.agreement.specs.Formats.{as_both, both_by, BothAlike};

use crate::calls::Calls;
use crate::formats::{InBoth, draw_in_both_formats_by};
use crate::twice::{Answers, draw_twice_and_measure_by};
use measuring::rendered_dimensions_aligned::get_rendered_dimensions_aligned;
use renderer::render_aligned::render_aligned;
use types::framebuffer::Framebuffer;
use types::geometry::Rectangle;
use types::results::Report;
use types::style::{FontStyle, HorizontalAlignment, Placement, VerticalPosition};

// `render_aligned` and `get_rendered_dimensions_aligned`, with one alignment.
#[derive(Clone, Copy, Debug, PartialEq, Eq)]
pub struct Aligned {
    pub horizontal_align: HorizontalAlignment,
}

impl Calls for Aligned {
    type Answer = Option<Rectangle>;

    ghost box_in = { aligned_box };

    ghost align = { λ calls. calls.horizontal_align };

    ghost draws = { λ font r color p. draw_aligned font r color p.framebuffer p.before };

    ghost measures = { measure_aligned };

    ghost agrees = { aligned_agreement };

    ghost unpacks = { aligned_drawn_alike };

    fn draw(
        &self,
        font: &[u8],
        text: &[u8],
        placement: Placement,
        style: FontStyle,
        framebuffer: Framebuffer,
        buffer: &mut [u8],
    ) -> Report<Option<Rectangle>> {
        render_aligned(
            font,
            text,
            placement,
            style,
            self.horizontal_align,
            framebuffer,
            buffer,
        )
    }

    fn measure(
        &self,
        font: &[u8],
        text: &[u8],
        placement: Placement,
        vertical_pos: VerticalPosition,
    ) -> Report<Option<Rectangle>> {
        get_rendered_dimensions_aligned(font, text, placement, vertical_pos, self.horizontal_align)
    }
}

// Draws one text, aligned, on two framebuffers, on each with a font of its own, and measures it so aligned with both fonts.
pub fn draw_aligned_twice_and_measure(
    first_font: &[u8],
    second_font: &[u8],
    text: &[u8],
    placement: Placement,
    style: FontStyle,
    horizontal_align: HorizontalAlignment,
    first_framebuffer: Framebuffer,
    first_buffer: &mut [u8],
    second_framebuffer: Framebuffer,
    second_buffer: &mut [u8],
) -> Answers<Option<Rectangle>>
    ensures called { as_results result first_buffer.new second_buffer.new ≡ aligned_results
        (u8g2 first_font.now) (u8g2 second_font.now)
        (request text.now placement style.vertical_pos horizontal_align) style.color
        (on first_framebuffer first_buffer.old) (on second_framebuffer second_buffer.old) }
    ensures agree { MeasuredAsDrawn aligned_box first_font.now second_font.now
        (request text.now placement style.vertical_pos horizontal_align) (on first_framebuffer first_buffer.old)
        (on second_framebuffer second_buffer.old) (as_results result first_buffer.new
        second_buffer.new) }
{
    draw_twice_and_measure_by(
        &Aligned { horizontal_align },
        first_font,
        second_font,
        text,
        placement,
        style,
        first_framebuffer,
        first_buffer,
        second_framebuffer,
        second_buffer,
    )
}

// Draws one text, aligned, on a framebuffer and on one of as many pixels in bytes.
pub fn draw_aligned_in_both_formats(
    font: &[u8],
    text: &[u8],
    placement: Placement,
    style: FontStyle,
    horizontal_align: HorizontalAlignment,
    framebuffer: Framebuffer,
    buffer: &mut [u8],
    pixels: &mut [u8],
) -> InBoth<Option<Rectangle>>
    ensures called { as_both result buffer.new pixels.new ≡ both_by (λ font r color p. draw_aligned font r color p.framebuffer p.before)
        (u8g2 font.now) (request text.now placement style.vertical_pos horizontal_align) style.color
        (on framebuffer buffer.old) pixels.old }
    ensures alike { BothAlike style.color (on framebuffer buffer.old) pixels.old result buffer.new pixels.new }
{
    let calls = Aligned { horizontal_align };
    draw_in_both_formats_by(
        &calls,
        font,
        text,
        placement,
        style,
        framebuffer,
        buffer,
        pixels,
    )
}
