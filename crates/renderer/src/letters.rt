// Drawing the letters of a text on a framebuffer.
ghost use Rattle.std.specs.Prelude.{◌≡◌, length};
ghost use Rattle.definitions.specs.TextSteps.{answer_shown};
ghost use Rattle.definitions.specs.Font.{u8g2, pixels_of};
ghost use Rattle.answers.specs.Answers.{as_answer};
ghost use Rattle.renderer.specs.CharAnswers.{DrawableAnswer, DrawableChar, CharDrawn};
ghost use Rattle.renderer.specs.Texts.{DrawableLetters, LettersDrawn};

use answers::retrieve_answer;
use checks::origin::Pen;
use font_reader::opened::OpenedFont;
use glyph_renderer::render_glyph;
use layout::steps::{NEWLINE, add_answer, add_newline, get_next_bounding_box};
use lookup_sums::{add_steps, stopped};
use types::error::Error;
use types::framebuffer::Framebuffer;
use types::geometry::{Point, RenderedDimensions};
use types::glyph_reader::GlyphReader;
use types::results::Report;
use types::steps::LookupSteps;
use types::style::FontColor;
use utf8::split_first_char;

// What is drawn with, and on what. The framebuffer's bytes are lent beside it: a struct that held them would need two clauses more
// in each function that draws, that the size and the borrow stay.
#[derive(Clone, Copy, Debug, PartialEq, Eq)]
pub struct Context {
    pub color: FontColor,
    pub framebuffer: Framebuffer,
}

// Draws the glyph that a character shows, at the advance so far. Other answers draw nothing.
fn draw_answer(
    font: &OpenedFont,
    answer: Result<Option<GlyphReader>, Error>,
    dimensions: RenderedDimensions,
    origin: Point,
    context: Context,
    buffer: &mut [u8],
)
    requires { DrawableAnswer font.now.bytes.now font.now.head (as_answer answer) origin dimensions context.framebuffer
        (length buffer.old) }
    ensures { buffer.new ≡ answer_shown context.framebuffer context.color
        (pixels_of (u8g2 font.now.bytes.now)) origin dimensions (as_answer answer) buffer.old }
{
    let Ok(shown) = answer else {
        return;
    };
    let Some(glyph) = shown else {
        return;
    };
    let glyph_box = get_next_bounding_box(dimensions, origin, glyph);
    let color = context.color;
    let framebuffer = context.framebuffer;
    render_glyph(font, glyph, glyph_box, color, framebuffer, buffer);
}

// One character. It is counted first, so that less is kept while it is drawn.
fn draw_char(
    font: &OpenedFont,
    ch: u32,
    dimensions: RenderedDimensions,
    pen: Pen,
    context: Context,
    buffer: &mut [u8],
) -> Report<RenderedDimensions>
    requires { DrawableChar pen dimensions context.framebuffer (length buffer.old) }
    ensures { CharDrawn font.now.bytes.now ch dimensions pen context buffer.old buffer.new result }
{
    if ch == NEWLINE {
        return Report {
            result: Ok(add_newline(dimensions, pen.line_height)),
            steps: LookupSteps::default(),
        };
    }
    let origin = pen.origin;
    let answer = retrieve_answer(font, ch, pen.ignore_unknown_chars);
    let result = add_answer(dimensions, origin, answer.result);
    draw_answer(font, answer.result, dimensions, origin, context, buffer);
    Report {
        result,
        steps: answer.steps,
    }
}

// The letters of a line, or of a whole text, one after the other from the dimensions so far on, and their steps added up. The
// first that stops the text is the answer, and those before it stay.
pub fn draw_text(
    font: &OpenedFont,
    text: &[u8],
    pen: Pen,
    before: RenderedDimensions,
    context: Context,
    buffer: &mut [u8],
) -> Report<RenderedDimensions>
    requires { DrawableLetters text.now pen before context.framebuffer (length buffer.old) }
    ensures { LettersDrawn font.now.bytes.now text.now pen before context buffer.old
        buffer.new result }
{
    let mut dimensions = before;
    let mut steps = LookupSteps::default();
    let mut rest = text;
    while let Some((ch, tail)) = split_first_char(rest) {
        let drawn = draw_char(font, ch, dimensions, pen, context, &mut buffer[..]);
        let sum = add_steps(steps, drawn.steps);
        match drawn.result {
            Err(error) => return stopped(error, sum),
            Ok(longer) => dimensions = longer,
        }
        steps = sum;
        rest = tail;
    }
    Report {
        result: Ok(dimensions),
        steps,
    }
}
