// The steps of counting a text, character by character: drawing takes them from the text's origin, measuring from each line's start.
ghost use Rattle.std.specs.Prelude.{◌≡◌, ◌≤◌};
ghost use Rattle.definitions.specs.Refusals.{outcome};
ghost use Rattle.definitions.specs.TextSteps.{newline_step, glyph_step, answer_step};
ghost use Rattle.answers.specs.Answers.{as_answer};
ghost use Rattle.layout.specs.Ranges.{Near, HasRoom, NextBox};

use crate::render_actions::{get_glyph_bounding_box, moved};
use types::error::Error;
use types::geometry::{Point, Rectangle, RenderedDimensions};
use types::glyph_reader::GlyphReader;
use utils::combine_bounding_boxes;

pub const NEWLINE: u32 = 10;

// The bound is of a plain number, here, in text_lines and in vertical_offset: a type that holds it would ask callers for more.
pub fn add_newline(dimensions: RenderedDimensions, line_height: u32) -> RenderedDimensions
    requires { Near dimensions.advance.y × (line_height ≤ 65535) }
    ensures { result ≡ newline_step line_height dimensions }
{
    let advance = dimensions.advance;
    let bounding_box = dimensions.bounding_box;
    RenderedDimensions {
        advance: Point {
            x: 0,
            y: advance.y + (line_height as i32),
        },
        bounding_box,
    }
}

// A glyph stands at the advance so far ..
pub fn get_next_bounding_box(
    dimensions: RenderedDimensions,
    origin: Point,
    glyph: GlyphReader,
) -> Option<Rectangle>
    requires { HasRoom origin dimensions }
    ensures { NextBox origin dimensions glyph result }
{
    let advance = dimensions.advance;
    get_glyph_bounding_box(glyph, origin.x + advance.x, origin.y + advance.y)
}

// .. and then adds its own.
pub fn add_glyph(
    dimensions: RenderedDimensions,
    origin: Point,
    glyph: GlyphReader,
) -> RenderedDimensions
    requires { HasRoom origin dimensions }
    ensures { result ≡ glyph_step origin dimensions glyph }
{
    let advance = dimensions.advance;
    let bounding_box = dimensions.bounding_box;
    let glyph_box = get_next_bounding_box(dimensions, origin, glyph);
    RenderedDimensions {
        advance: Point {
            x: moved(advance.x, glyph.advance),
            y: advance.y,
        },
        bounding_box: combine_bounding_boxes(bounding_box, glyph_box),
    }
}

// A character that is skipped leaves the dimensions as they are.
pub fn add_answer(
    dimensions: RenderedDimensions,
    origin: Point,
    answer: Result<Option<GlyphReader>, Error>,
) -> Result<RenderedDimensions, Error>
    requires { HasRoom origin dimensions }
    ensures { outcome result ≡ answer_step origin dimensions (as_answer answer) }
{
    match answer? {
        Some(glyph) => Ok(add_glyph(dimensions, origin, glyph)),
        None => Ok(dimensions),
    }
}
