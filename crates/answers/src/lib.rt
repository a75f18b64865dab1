// What a font answers to one character of a text, in measuring and in drawing.
#![tactic(auto)]

pub mod lookup;

ghost use Rattle.std.specs.Prelude.{◌≡◌};
ghost use Rattle.definitions.specs.Refusals.{outcome};
ghost use Rattle.definitions.specs.Text.{answer};
ghost use Rattle.definitions.specs.Glyph.{glyph};
ghost use Rattle.definitions.specs.Font.{u8g2, drawable, measured_answer, drawn_answer};
ghost use Rattle.answers.specs.Answers.{as_answer, IsAnswer, WholeLookedUp};

use crate::lookup::retrieve_glyph_data;
use font_reader::opened::OpenedFont;
use runs::check_runs;
use types::error::Error;
use types::glyph_reader::GlyphReader;
use types::results::Report;

// What a lookup comes to in a text: a glyph is shown, or nothing, or the text is stopped. Only an unknown character is skipped: the
// end of the font always stops the text.
fn skip_unknown(
    found: Result<GlyphReader, Error>,
    ignore_unknown_chars: bool,
) -> Result<Option<GlyphReader>, Error>
    ensures { as_answer result ≡ answer ignore_unknown_chars (outcome found) }
{
    match found {
        Ok(glyph) => Ok(Some(glyph)),
        Err(Error::GlyphNotFound(_)) if ignore_unknown_chars => Ok(None),
        Err(error) => Err(error),
    }
}

fn answer_of(lookup: Report<GlyphReader>, ignore_unknown_chars: bool) -> Report<Option<GlyphReader>>
    ensures { IsAnswer (answer ignore_unknown_chars (outcome lookup.result)) lookup.steps result }
{
    Report {
        result: skip_unknown(lookup.result, ignore_unknown_chars),
        steps: lookup.steps,
    }
}

// The answer to a code point in measuring, which reads no runs.
pub fn try_retrieve_glyph_data(
    font: &OpenedFont,
    ch: u32,
    ignore_unknown_chars: bool,
) -> Report<Option<GlyphReader>>
    ensures { IsAnswer (measured_answer (u8g2 font.now.bytes.now) ignore_unknown_chars ch)
        ((u8g2 font.now.bytes.now).steps ch) result }
{
    answer_of(retrieve_glyph_data(font, ch), ignore_unknown_chars)
}

// A glyph that was found, its runs read to the last pixel. So a glyph that the font's end cuts off is refused before any of it is
// drawn.
fn check_glyph(
    font: &OpenedFont,
    ch: u32,
    found: Result<GlyphReader, Error>,
) -> Result<GlyphReader, Error>
    requires { outcome found ≡ glyph font.now.bytes.now ch }
    ensures { outcome result ≡ drawable (u8g2 font.now.bytes.now) ch (outcome found) }
{
    let glyph = found?;
    if check_runs(font, glyph) {
        return Ok(glyph);
    }
    Err(Error::FontEnds(ch))
}

// The glyph of a code point, where all of it is there.
fn retrieve_whole_glyph(font: &OpenedFont, ch: u32) -> Report<GlyphReader>
    ensures { WholeLookedUp font.now.bytes.now ch result }
{
    let lookup = retrieve_glyph_data(font, ch);
    Report {
        result: check_glyph(font, ch, lookup.result),
        steps: lookup.steps,
    }
}

// The answer to a code point in drawing: that in measuring, of another lookup.
pub fn retrieve_answer(
    font: &OpenedFont,
    ch: u32,
    ignore_unknown_chars: bool,
) -> Report<Option<GlyphReader>>
    ensures { IsAnswer (drawn_answer (u8g2 font.now.bytes.now) ignore_unknown_chars ch)
        ((u8g2 font.now.bytes.now).steps ch) result }
{
    answer_of(retrieve_whole_glyph(font, ch), ignore_unknown_chars)
}
