// What the step from one reading to the next tests before it changes a pixel.
#![tactic(auto)]

ghost use Rattle.std.specs.Prelude.{◌≡◌, ◌||◌};
ghost use Rattle.definitions.specs.Vocabulary.{Transparent};
ghost use Rattle.definitions.specs.Limits.{color_off};
ghost use Rattle.redraw_checks.specs.Drawing.{asked, ground_of};
ghost use Rattle.redraw_checks.specs.Checks.{redraw_causes, ReadyFor};
ghost use Rattle.checks.specs.Setups.{Tests};

use checks::limits::{has_bad_color, has_bad_size, has_bad_text, has_unsupported_color};
use checks::origin::{Pen, Setup, text_origin};
use font_reader::opened::OpenedFont;
use types::error::Error;
use types::place::Place;
use types::style::{FontColor, Placement};

// The font, opened, and what each text is set with.
#[derive(Clone, Copy, Debug, PartialEq, Eq)]
pub struct Step<'a> {
    pub font: OpenedFont<'a>,
    pub old_pen: Pen,
    pub new_pen: Pen,
}

// Cause 9, of the colours of the new text, and of what clears the old one.
fn has_unsupported_colors(place: Place) -> bool
    ensures { result ≡ (color_off place.framebuffer.format place.style.color
        || color_off place.framebuffer.format (Transparent place.background)) }
{
    let format = place.framebuffer.format;
    has_unsupported_color(format, place.style.color)
        | has_unsupported_color(format, FontColor::Transparent(place.background))
}

// Causes 1 to 5, 9 and 6 (SPECIFICATION, Refusals), in this order, for both texts. Nothing is skipped. The two texts stand one by one,
// here and in redraw: a struct of them would be made for the call and taken apart in it.
pub fn check_step<'a>(
    font: &'a [u8],
    old_text: &[u8],
    new_text: &[u8],
    place: Place,
    buffer: &[u8],
) -> Result<Step<'a>, Error>
    ensures { Tests (redraw_causes font.now old_text.now (asked place new_text.now) place.background (ground_of place buffer.now))
        (ReadyFor font.now old_text.now (asked place new_text.now) (ground_of place buffer.now)) result }
{
    let font = OpenedFont::open(font)?;
    if has_bad_size(place.framebuffer, buffer) {
        return Err(Error::FramebufferSize);
    }
    if has_bad_text(old_text) {
        return Err(Error::TextEncoding);
    }
    let placement = Placement {
        position: place.position,
        line_height: place.line_height,
        ignore_unknown_chars: false,
    };
    let vertical_pos = place.style.vertical_pos;
    let setup = Setup::checked(font, new_text, placement, vertical_pos)?;
    if has_unsupported_colors(place) {
        return Err(Error::ColorNotSupported);
    }
    let head = font.head;
    if has_bad_color(place.style.color, head.supports_background_color) {
        return Err(Error::BackgroundColorNotSupported);
    }
    let old_origin = text_origin(head.ascent, head.descent, old_text, placement, vertical_pos);
    let old_pen = Pen::new(old_origin, placement);
    Ok(Step {
        font,
        old_pen,
        new_pen: setup.pen,
    })
}
