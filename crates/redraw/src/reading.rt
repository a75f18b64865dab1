// A reading drawn over the one before, whole or not at all.
ghost use Rattle.std.specs.Prelude.{◌≡◌, length};
ghost use Rattle.definitions.specs.Refusals.{outcome};
ghost use Rattle.definitions.specs.Font.{u8g2};
ghost use Rattle.definitions.specs.Sums.{sums};
ghost use Rattle.renderer.specs.Texts.{DrawableText, counted_with};
ghost use Rattle.redraw_checks.specs.Drawing.{asked, ground_of};
ghost use Rattle.redraw.specs.Redraw.{ReadingDrawn, Cleared, redrawn, RedrawnFilling, redrawn_buffer, taken};
ghost use Rattle.redraw.specs.Steps.{setting_of, reading_of, LeavesReading};

use checks::origin::Pen;
use font_reader::opened::OpenedFont;
use framebuffer::fill::fill_box;
use lookup_sums::refused;
use redraw_checks::check_step;
use renderer::letters::Context;
use renderer::lines::{draw_aligned, get_drawn_dimensions};
use types::error::Error;
use types::geometry::{Rectangle, RenderedDimensions};
use types::place::Place;
use types::results::Report;

// Fills what `to_fill` makes of the box of a text that draws. One that does not draw has left nothing on the framebuffer.
// The font, the text and its pen stand one by one, as the renderer takes them: its lines share the font and have texts of their own.
fn clear_reading<F: FnOnce(Option<Rectangle>) -> Option<Rectangle>>(
    font: &OpenedFont,
    text: &[u8],
    pen: Pen,
    place: Place,
    to_fill: F,
    buffer: &mut [u8],
)
    requires drawable { DrawableText text.now pen place.framebuffer (length buffer.old) }
    requires callable { F.IsAlwaysCallable to_fill }
    ensures { Cleared (F.post to_fill) place.framebuffer place.background
        (counted_with font.now.bytes.now text.now place.horizontal_align pen) buffer.old
        buffer.new }
{
    let drawn = get_drawn_dimensions(font, text, pen, place.horizontal_align);
    if let Ok(dimensions) = drawn.result {
        let filled = to_fill(dimensions.bounding_box);
        fill_box(filled, place.background, place.framebuffer, buffer);
    }
}

// Draws a text of which every character draws, and of any other nothing.
pub fn draw_reading(
    font: &OpenedFont,
    text: &[u8],
    pen: Pen,
    place: Place,
    buffer: &mut [u8],
) -> Report<RenderedDimensions>
    requires { DrawableText text.now pen place.framebuffer (length buffer.old) }
    ensures { ReadingDrawn font.now.bytes.now text.now pen place buffer.old buffer.new
        result }
{
    let expected = get_drawn_dimensions(font, text, pen, place.horizontal_align);
    if expected.result.is_err() {
        return expected;
    }
    let context = Context {
        color: place.style.color,
        framebuffer: place.framebuffer,
    };
    draw_aligned(font, text, pen, place.horizontal_align, context, buffer)
}

// Clears the old text's reading and draws the new text's, or refuses to. Causes 1 to 6 and 9 are tested for both texts before a pixel
// changes. Then what `to_fill` makes of the old reading's box is filled with the background, and the new reading is drawn if every
// one of its characters draws; else its refusal, 7 or 8, is the answer, and nothing of it is drawn. The steps are those of the new
// text's lookups, once.
pub fn redraw_filling<F: FnOnce(Option<Rectangle>) -> Option<Rectangle>>(
    font: &[u8],
    old_text: &[u8],
    new_text: &[u8],
    place: Place,
    to_fill: F,
    buffer: &mut [u8],
) -> Report<RenderedDimensions>
    requires { F.IsAlwaysCallable to_fill }
    ensures answered { outcome result.result ≡ redrawn font.now old_text.now
        (asked place new_text.now) place.background (ground_of place buffer.old) }
    ensures shown { RedrawnFilling (F.post to_fill) font.now old_text.now
        (asked place new_text.now) place.background (ground_of place buffer.old) buffer.new }
    ensures summed { result.steps ≡ sums (u8g2 font.now) new_text.now (redrawn font.now
        old_text.now (asked place new_text.now) place.background (ground_of place buffer.old)) }
{
    // A `Report` is no `Result`, so no `?` hands the refusal on.
    match check_step(font, old_text, new_text, place, buffer) {
        Err(error) => refused(error),
        Ok(step) => {
            clear_reading(&step.font, old_text, step.old_pen, place, to_fill, buffer);
            draw_reading(&step.font, new_text, step.new_pen, place, buffer)
        }
    }
}

// The step of the gauge: the old reading's whole box is filled.
pub fn redraw(
    font: &[u8],
    old_text: &[u8],
    new_text: &[u8],
    place: Place,
    buffer: &mut [u8],
) -> Report<RenderedDimensions>
    ensures answered { outcome result.result ≡ redrawn font.now old_text.now
        (asked place new_text.now) place.background (ground_of place buffer.old) }
    ensures shown { buffer.new ≡ redrawn_buffer font.now old_text.now
        (asked place new_text.now) place.background (ground_of place buffer.old) }
    ensures leaves { LeavesReading (setting_of font.now place) old_text.now
        (reading_of new_text.now place.style.color) buffer.old (outcome result.result)
        buffer.new }
    ensures summed { result.steps ≡ sums (u8g2 font.now) new_text.now (redrawn font.now
        old_text.now (asked place new_text.now) place.background (ground_of place buffer.old)) }
{
    redraw_filling(font, old_text, new_text, place, |old_box| old_box, buffer)
}

// Whether the step was taken, so that the next one is to clear its new text. If it was not, the old text still stands.
pub fn is_taken(answer: Result<RenderedDimensions, Error>) -> bool
    ensures { result ≡ taken (outcome answer) }
{
    matches!(
        answer,
        Ok(_) | Err(Error::GlyphNotFound(_) | Error::FontEnds(_))
    )
}
