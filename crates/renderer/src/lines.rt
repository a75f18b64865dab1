// Drawing a text line by line, each line where its alignment puts it.
ghost use Rattle.std.specs.Prelude.{◌≡◌, ◌==◌, ◌≤◌, length, position, MatchOption};
ghost use Rattle.definitions.specs.Utf8.{newlines};
ghost use Rattle.definitions.specs.TextSteps.{start};
ghost use Rattle.checks.specs.Origins.{Checked};
ghost use Rattle.renderer.specs.Lines.{line_of, rest_of};
ghost use Rattle.renderer.specs.Texts.{DrawableText, DrawableLine, LineDrawn, Moves, TextCounted, TextDrawn};

use crate::letters::{Context, draw_text};
use checks::origin::Pen;
use font_reader::opened::OpenedFont;
use layout::steps::add_newline;
use line_alignment::align_pen;
use lookup_sums::{add_steps, stopped};
use types::framebuffer::{Framebuffer, PixelFormat};
use types::geometry::RenderedDimensions;
use types::results::Report;
use types::steps::LookupSteps;
use types::style::{FontColor, HorizontalAlignment};

// Where a text's lines stand.
#[derive(Clone, Copy, Debug, PartialEq, Eq)]
pub struct LineSetting {
    pub pen: Pen,
    pub horizontal_align: HorizontalAlignment,
}

// Where a text's first newline is. No longer sequence of UTF-8 has its byte.
fn first_newline(text: &[u8]) -> Option<usize>
    ensures { result ≡ position (λ byte. byte == 10) text.now }
{
    text.iter().position(|byte| *byte == b'\n')
}

// The first line of a text, and what comes after its newline where it has one. core's `slice::split` does not say which line is the
// last, behind which no newline is added.
#[tactic(auto, using(crate::proofs::FirstLineLaws::first_lines))]
fn split_line(text: &[u8]) -> (&[u8], Option<&[u8]>)
    ensures line { result.0.now ≡ line_of text.now }
    ensures after { MatchOption result.1 (newlines text.now ≡ 0) (λ rest. (1 ≤ newlines text.now) × (rest.now ≡ rest_of text.now)) }
{
    match first_newline(text) {
        Some(end) => (&text[..end], Some(&text[end + 1..])),
        None => (text, None),
    }
}

// One line. All of it is measured before its first letter is drawn: what stops it in measuring leaves the framebuffer as it was.
// Drawing looks its letters up a second time, in as many steps, and its steps alone are handed up. It comes to what a character
// does: dimensions or a refusal.
fn draw_line(
    font: &OpenedFont,
    line: &[u8],
    setting: LineSetting,
    dimensions: RenderedDimensions,
    context: Context,
    buffer: &mut [u8],
) -> Report<RenderedDimensions>
    requires { DrawableLine line.now setting dimensions context.framebuffer (length buffer.old) }
    ensures { LineDrawn font.now.bytes.now line.now setting dimensions context buffer.old
        buffer.new result }
{
    let pen = setting.pen;
    let horizontal_align = setting.horizontal_align;
    let aligned = align_pen(font, line, horizontal_align, pen);
    match aligned.result {
        Err(error) => stopped(error, aligned.steps),
        Ok(line_pen) => draw_text(font, line, line_pen, dimensions, context, buffer),
    }
}

// The lines of a checked text, one after the other, and their steps added up. The first that is stopped is the answer, and the
// lines before it stay. (Not inlined: plain drawing, which does not come here, would take its stack.)
#[inline(never)]
fn draw_lines(
    font: &OpenedFont,
    text: &[u8],
    setting: LineSetting,
    context: Context,
    buffer: &mut [u8],
) -> Report<RenderedDimensions>
    requires { DrawableText text.now setting.pen context.framebuffer (length buffer.old)
        × Moves setting.horizontal_align }
    ensures { TextDrawn font.now.bytes.now text.now setting.horizontal_align setting.pen context
        buffer.old buffer.new result }
{
    let pen = setting.pen;
    let mut dimensions = RenderedDimensions::default();
    let mut steps = LookupSteps::default();
    let mut rest = text;
    loop {
        let (line, after) = split_line(rest);
        let drawn = draw_line(font, line, setting, dimensions, context, &mut buffer[..]);
        let sum = add_steps(steps, drawn.steps);
        let longer = match drawn.result {
            Err(error) => return stopped(error, sum),
            Ok(longer) => longer,
        };
        let Some(next) = after else {
            return Report {
                result: Ok(longer),
                steps: sum,
            };
        };
        dimensions = add_newline(longer, pen.line_height);
        steps = sum;
        rest = next;
    }
}

// A checked text, aligned. Left moves no line, so none is measured: the text is drawn as it stands.
pub fn draw_aligned(
    font: &OpenedFont,
    text: &[u8],
    pen: Pen,
    horizontal_align: HorizontalAlignment,
    context: Context,
    buffer: &mut [u8],
) -> Report<RenderedDimensions>
    requires { DrawableText text.now pen context.framebuffer (length buffer.old) }
    ensures { TextDrawn font.now.bytes.now text.now horizontal_align pen context buffer.old
        buffer.new result }
{
    let setting = LineSetting {
        pen,
        horizontal_align,
    };
    match horizontal_align {
        HorizontalAlignment::Left => {
            draw_text(
                font,
                text,
                pen,
                RenderedDimensions::default(),
                context,
                buffer,
            )
        }
        HorizontalAlignment::Center | HorizontalAlignment::Right => {
            draw_lines(font, text, setting, context, buffer)
        }
    }
}

// What drawing a checked text answers: it is drawn on a framebuffer without rows, which shows nothing of it.
pub fn get_drawn_dimensions(
    font: &OpenedFont,
    text: &[u8],
    pen: Pen,
    horizontal_align: HorizontalAlignment,
) -> Report<RenderedDimensions>
    requires { Checked text.now pen.origin pen.line_height }
    ensures { TextCounted font.now.bytes.now text.now horizontal_align pen result }
{
    let mut pixels = [0u8; 1];
    let context = Context {
        color: FontColor::Transparent(0),
        framebuffer: Framebuffer {
            format: PixelFormat::Bytes,
            width: 1,
            height: 0,
        },
    };
    draw_aligned(font, text, pen, horizontal_align, context, &mut pixels[..0])
}
