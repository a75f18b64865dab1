// One drawing on a framebuffer of any format, and the same on one of as many pixels in bytes: where they begin alike, they end alike.
ghost use Rattle.std.specs.Prelude.{◌≡◌};
ghost use Rattle.definitions.specs.Font.{u8g2};
ghost use Rattle.definitions.specs.Calls.{request};
ghost use Rattle.definitions.specs.Agreement.{on};
ghost use Rattle.agreement.specs.Formats.{as_both, both_by, BothAlike};

use crate::calls::Calls;
use types::framebuffer::{Framebuffer, PixelFormat};
use types::results::Report;
use types::style::{FontStyle, Placement};

// What the call answered on each.
#[derive(Clone, Copy, Debug, PartialEq, Eq)]
pub struct InBoth<T> {
    pub drawn: Report<T>,
    pub drawn_in_bytes: Report<T>,
}

pub fn draw_in_both_formats_by<C: Calls>(
    calls: &C,
    font: &[u8],
    text: &[u8],
    placement: Placement,
    style: FontStyle,
    framebuffer: Framebuffer,
    buffer: &mut [u8],
    pixels: &mut [u8],
) -> InBoth<C::Answer>
    ensures called { as_both result buffer.new pixels.new ≡ both_by C.draws (u8g2 font.now)
        (request text.now placement style.vertical_pos (C.align calls.now)) style.color (on framebuffer buffer.old) pixels.old }
    ensures alike { BothAlike style.color (on framebuffer buffer.old) pixels.old result buffer.new pixels.new }
{
    let in_bytes = Framebuffer {
        format: PixelFormat::Bytes,
        width: framebuffer.width,
        height: framebuffer.height,
    };
    let drawn = calls.draw(font, text, placement, style, framebuffer, &mut buffer[..]);
    let drawn_in_bytes = calls.draw(font, text, placement, style, in_bytes, &mut pixels[..]);
    InBoth {
        drawn,
        drawn_in_bytes,
    }
}
