// Agreement of drawing and measuring, by any calls.
ghost use Rattle.std.specs.Prelude.{◌≡◌};
ghost use Rattle.definitions.specs.Font.{u8g2};
ghost use Rattle.definitions.specs.Calls.{request};
ghost use Rattle.definitions.specs.Agreement.{on, MeasuredAsDrawn};
ghost use Rattle.agreement.specs.Calls.{as_results, results_of};

use crate::calls::Calls;
use types::framebuffer::Framebuffer;
use types::results::Report;
use types::style::{FontStyle, Placement};

// What each of the four calls answered.
#[derive(Clone, Copy, Debug, PartialEq, Eq)]
pub struct Answers<T> {
    pub first: Report<T>,
    pub second: Report<T>,
    pub first_measured: Report<T>,
    pub second_measured: Report<T>,
}

// Draws one text on two framebuffers, on each with a font of its own, and measures it with both fonts. Whatever the input, the four
// answers and the two framebuffers are those of the calls, and so the claim is about the calls. What they are handed stands one by one,
// as they take it: a struct that lends a buffer needs two clauses more (`Context` of crate renderer).
pub fn draw_twice_and_measure_by<C: Calls>(
    calls: &C,
    first_font: &[u8],
    second_font: &[u8],
    text: &[u8],
    placement: Placement,
    style: FontStyle,
    first_framebuffer: Framebuffer,
    first_buffer: &mut [u8],
    second_framebuffer: Framebuffer,
    second_buffer: &mut [u8],
) -> Answers<C::Answer>
    ensures called { as_results result first_buffer.new second_buffer.new ≡ results_of C.draws C.measures
        (u8g2 first_font.now) (u8g2 second_font.now)
        (request text.now placement style.vertical_pos (C.align calls.now)) style.color
        (on first_framebuffer first_buffer.old) (on second_framebuffer second_buffer.old) }
    ensures agree { MeasuredAsDrawn C.box_in first_font.now second_font.now
        (request text.now placement style.vertical_pos (C.align calls.now))
        (on first_framebuffer first_buffer.old) (on second_framebuffer second_buffer.old)
        (as_results result first_buffer.new second_buffer.new) }
{
    let first = calls.draw(
        first_font,
        text,
        placement,
        style,
        first_framebuffer,
        &mut first_buffer[..],
    );
    let second = calls.draw(
        second_font,
        text,
        placement,
        style,
        second_framebuffer,
        &mut second_buffer[..],
    );
    let vertical_pos = style.vertical_pos;
    let first_measured = calls.measure(first_font, text, placement, vertical_pos);
    let second_measured = calls.measure(second_font, text, placement, vertical_pos);
    Answers {
        first,
        second,
        first_measured,
        second_measured,
    }
}
