// The dimensions of a drawn text, however it is aligned, which the public calls read their answers off.
ghost use Rattle.std.specs.Prelude.{◌≡◌, length};
ghost use Rattle.definitions.specs.Refusals.{outcome};
ghost use Rattle.definitions.specs.Font.{u8g2};
ghost use Rattle.definitions.specs.Calls.{plain, request, draw_causes, draw, draw_buffer};
ghost use Rattle.definitions.specs.Sums.{sums};
ghost use Rattle.checks.specs.Setups.{Tests};
ghost use Rattle.renderer.specs.Checks.{DrawnFor};

use crate::letters::Context;
use crate::lines::draw_aligned;
use checks::limits::{has_bad_color, has_bad_size, has_unsupported_color};
use checks::origin::Setup;
use font_reader::opened::OpenedFont;
use lookup_sums::refused;
use types::error::Error;
use types::framebuffer::Framebuffer;
use types::geometry::RenderedDimensions;
use types::results::Report;
use types::style::{FontStyle, HorizontalAlignment, Placement};

// Causes 1 to 5, 9 and 6, in this order (SPECIFICATION, Refusals).
fn check<'a>(
    font: &'a [u8],
    text: &[u8],
    placement: Placement,
    style: FontStyle,
    framebuffer: Framebuffer,
    buffer: &[u8],
) -> Result<Setup<'a>, Error>
    ensures { Tests (draw_causes (u8g2 font.now) (plain text.now placement style.vertical_pos) style.color framebuffer buffer.now)
        (DrawnFor font.now (plain text.now placement style.vertical_pos) framebuffer (length buffer.now)) result }
{
    let font = OpenedFont::open(font)?;
    if has_bad_size(framebuffer, buffer) {
        return Err(Error::FramebufferSize);
    }
    let setup = Setup::checked(font, text, placement, style.vertical_pos)?;
    if has_unsupported_color(framebuffer.format, style.color) {
        return Err(Error::ColorNotSupported);
    }
    if has_bad_color(style.color, font.head.supports_background_color) {
        return Err(Error::BackgroundColorNotSupported);
    }
    Ok(setup)
}

// Draws the aligned text where it is placed on a framebuffer of that size, or refuses to; the steps of its lookups come with
// either. A call that is refused before the first letter leaves the framebuffer as it was.
pub fn aligned_drawing(
    font: &[u8],
    text: &[u8],
    placement: Placement,
    style: FontStyle,
    horizontal_align: HorizontalAlignment,
    framebuffer: Framebuffer,
    buffer: &mut [u8],
) -> Report<RenderedDimensions>
    ensures answered { outcome result.result ≡ draw (u8g2 font.now)
        (request text.now placement style.vertical_pos horizontal_align) style.color framebuffer buffer.old }
    ensures shown { buffer.new ≡ draw_buffer (u8g2 font.now)
        (request text.now placement style.vertical_pos horizontal_align) style.color framebuffer buffer.old }
    ensures summed { result.steps ≡ sums (u8g2 font.now) text.now (draw (u8g2 font.now)
        (request text.now placement style.vertical_pos horizontal_align) style.color framebuffer buffer.old) }
{
    // A `Report` is no `Result`, so no `?` hands the refusal on.
    match check(font, text, placement, style, framebuffer, &buffer[..]) {
        Err(error) => refused(error),
        Ok(setup) => {
            let context = Context {
                color: style.color,
                framebuffer,
            };
            let pen = setup.pen;
            draw_aligned(&setup.font, text, pen, horizontal_align, context, buffer)
        }
    }
}
