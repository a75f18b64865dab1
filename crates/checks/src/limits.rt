// The limits of framebuffers, texts, places, line heights and colours: causes 3 to 6 and 9 (SPECIFICATION, Refusals).
ghost use Rattle.std.specs.Prelude.{◌≡◌, ◌<◌};
ghost use Rattle.definitions.specs.Framebuffer.{side_off, framebuffer_cause};
ghost use Rattle.definitions.specs.Limits.{text_cause, coordinate_off, position_cause, no_bit, color_off, background_off};

use content::text::is_utf8;
use pixels::size::{per_byte, size_in_bytes};
use types::framebuffer::{Framebuffer, PixelFormat};
use types::style::{FontColor, Placement};

const MAX_SIDE: usize = 256;

const MAX_TEXT_SIZE: usize = 4096;

const MAX_COORDINATE: i32 = 1_048_576;

const MAX_LINE_HEIGHT: u32 = 65_535;

fn has_bad_side(side: usize) -> bool
    ensures { result ≡ side_off side }
{
    (side == 0) | (MAX_SIDE < side)
}

// Cause 3. The sides are tested before they are multiplied.
pub fn has_bad_size(framebuffer: Framebuffer, buffer: &[u8]) -> bool
    ensures { result ≡ (framebuffer_cause framebuffer buffer.now).applies }
{
    if has_bad_side(framebuffer.width) {
        return true;
    }
    if has_bad_side(framebuffer.height) {
        return true;
    }
    if framebuffer.height % per_byte(framebuffer.format) != 0 {
        return true;
    }
    buffer.len() != size_in_bytes(framebuffer)
}

// Cause 4. All of the text is looked at, so none of a text that is not UTF-8 is drawn.
pub fn has_bad_text(text: &[u8]) -> bool
    ensures { result ≡ (text_cause text.now).applies }
{
    if MAX_TEXT_SIZE < text.len() {
        return true;
    }
    !is_utf8(text)
}

fn has_bad_coordinate(coordinate: i32) -> bool
    ensures { result ≡ coordinate_off coordinate }
{
    (coordinate < -MAX_COORDINATE) | (MAX_COORDINATE < coordinate)
}

// Cause 5. The place is the given one: the anchor and the advance may move a glyph past the limit.
pub fn has_bad_position(placement: Placement) -> bool
    ensures { result ≡ (position_cause placement.position placement.line_height).applies }
{
    let position = placement.position;
    has_bad_coordinate(position.x)
        | has_bad_coordinate(position.y)
        | (MAX_LINE_HEIGHT < placement.line_height)
}

// Cause 9: a pixel is a bit, and a colour that it would take is neither 0 nor 1.
pub fn has_unsupported_color(format: PixelFormat, color: FontColor) -> bool
    ensures { result ≡ color_off format color }
{
    match format {
        PixelFormat::Bytes => false,
        PixelFormat::Packed => match color {
            FontColor::Transparent(fg) => 1 < fg,
            FontColor::WithBackground { fg, bg } => (1 < fg) | (1 < bg),
        },
    }
}

// Cause 6: a background colour is wanted, and the font has none.
pub fn has_bad_color(color: FontColor, supports_background_color: bool) -> bool
    ensures { result ≡ background_off color supports_background_color }
{
    match color {
        FontColor::Transparent(_) => false,
        FontColor::WithBackground { fg: _, bg: _ } => !supports_background_color,
    }
}
