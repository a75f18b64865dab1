// Measuring a text line by line. A line is measured from its own start, since how far it is moved is known only at its end.
#![tactic(auto)]

ghost use Rattle.std.specs.Prelude.{◌≡◌, ◌≤◌, pos};
ghost use Rattle.definitions.specs.Text.{point};
ghost use Rattle.definitions.specs.TextSteps.{start, moved_box, with_line, next_line, answer_of_line, lines_dimensions};
ghost use Rattle.text_lines.specs.Lines.{as_state, state_outcome, Movable, CanAdd, CharAdded, TextMeasured};
ghost use Rattle.checks.specs.Origins.{Checked};
ghost use Rattle.answers.specs.Answers.{as_answer};
ghost use Rattle.layout.specs.Ranges.{HasRoom, LineHasRoom};

use answers::try_retrieve_glyph_data;
use checks::origin::Pen;
use font_reader::opened::OpenedFont;
use layout::render_actions::compute_horizontal_offset;
use layout::steps::{NEWLINE, add_answer};
use lookup_sums::{add_steps, stopped};
use types::error::Error;
use types::geometry::{Point, Rectangle, RenderedDimensions};
use types::glyph_reader::GlyphReader;
use types::results::Report;
use types::steps::LookupSteps;
use types::style::HorizontalAlignment;
use utf8::split_first_char;
use utils::combine_bounding_boxes;

// The text so far: the line from its own start, how far below the origin it lies, and the box of the lines that have ended.
#[derive(Clone, Copy, Debug, PartialEq, Eq)]
pub struct LineState {
    pub line: RenderedDimensions,
    pub advance_y: i32,
    pub bounding_box: Option<Rectangle>,
}

fn move_box(bounding_box: Option<Rectangle>, x: i32, y: i32) -> Option<Rectangle>
    requires { Movable bounding_box x y }
    ensures { result ≡ moved_box x y bounding_box }
{
    let rectangle = bounding_box?;
    let top_left = rectangle.top_left;
    Some(Rectangle {
        top_left: Point {
            x: x + top_left.x,
            y: y + top_left.y,
        },
        ..rectangle
    })
}

// The box of the lines that have ended, with this one.
fn end_line(
    state: LineState,
    horizontal_align: HorizontalAlignment,
    origin: Point,
) -> Option<Rectangle>
    requires { LineHasRoom origin (as_state state) }
    ensures { result ≡ with_line horizontal_align origin (as_state state) }
{
    let line = state.line;
    let line_advance = line.advance;
    let line_box = line.bounding_box;
    let bounding_box = state.bounding_box;
    let offset = compute_horizontal_offset(horizontal_align, line_box, line_advance.x);
    let line_there = move_box(line_box, origin.x + offset, origin.y + state.advance_y);
    combine_bounding_boxes(bounding_box, line_there)
}

// The bound is of a plain number: a pen has any line height, and a type that holds the bound would ask callers for more.
fn add_newline(
    state: LineState,
    horizontal_align: HorizontalAlignment,
    line_height: u32,
    origin: Point,
) -> LineState
    requires { LineHasRoom origin (as_state state) × (line_height ≤ 65535) }
    ensures { as_state result ≡ next_line horizontal_align line_height origin (as_state state) }
{
    LineState {
        line: RenderedDimensions::default(),
        advance_y: state.advance_y + (line_height as i32),
        bounding_box: end_line(state, horizontal_align, origin),
    }
}

// A letter is added to the line as plain text at (0, 0).
fn add_letter(
    state: LineState,
    answer: Result<Option<GlyphReader>, Error>,
) -> Result<LineState, Error>
    requires { HasRoom (point (pos 0) (pos 0)) state.line }
    ensures { state_outcome result ≡ answer_of_line (as_state state) (as_answer answer) }
{
    let line = add_answer(state.line, Point::default(), answer)?;
    Ok(LineState { line, ..state })
}

// One character: a newline ends the line, and a letter is added to it.
fn add_char(
    font: &OpenedFont,
    ch: u32,
    state: LineState,
    horizontal_align: HorizontalAlignment,
    pen: Pen,
) -> Report<LineState>
    requires { CanAdd state pen }
    ensures { CharAdded font.now.bytes.now ch horizontal_align pen state result }
{
    if ch == NEWLINE {
        let origin = pen.origin;
        let next = add_newline(state, horizontal_align, pen.line_height, origin);
        return Report {
            result: Ok(next),
            steps: LookupSteps::default(),
        };
    }
    let answer = try_retrieve_glyph_data(font, ch, pen.ignore_unknown_chars);
    Report {
        result: add_letter(state, answer.result),
        steps: answer.steps,
    }
}

// What the lines come to at the text's end.
fn end_text(
    state: LineState,
    horizontal_align: HorizontalAlignment,
    origin: Point,
) -> RenderedDimensions
    requires { LineHasRoom origin (as_state state) }
    ensures { result ≡ lines_dimensions horizontal_align origin (as_state state) }
{
    let line = state.line;
    let line_advance = line.advance;
    RenderedDimensions {
        advance: Point {
            x: line_advance.x,
            y: state.advance_y,
        },
        bounding_box: end_line(state, horizontal_align, origin),
    }
}

// The letters of a checked text, one after the other, and their steps added up. The first that stops the text is the answer.
// Alignment and pen are two parameters, here and in line_alignment: the pen is that of the text's setup and the alignment the
// caller's, and they part where a line is aligned: it is measured with Left and drawn by a moved pen alone.
pub fn measure_lines(
    font: &OpenedFont,
    text: &[u8],
    horizontal_align: HorizontalAlignment,
    pen: Pen,
) -> Report<RenderedDimensions>
    requires { Checked text.now pen.origin pen.line_height }
    ensures { TextMeasured font.now.bytes.now text.now horizontal_align pen result }
{
    let mut state = LineState {
        line: RenderedDimensions::default(),
        advance_y: 0,
        bounding_box: None,
    };
    let mut steps = LookupSteps::default();
    let mut rest = text;
    while let Some((ch, tail)) = split_first_char(rest) {
        let added = add_char(font, ch, state, horizontal_align, pen);
        // each arm adds the steps: once before both costs 10 instructions a call, and the goal of measuring is missed (BENCHMARKS)
        match added.result {
            Err(error) => return stopped(error, add_steps(steps, added.steps)),
            Ok(longer) => {
                state = longer;
                steps = add_steps(steps, added.steps);
            }
        }
        rest = tail;
    }
    let origin = pen.origin;
    Report {
        result: Ok(end_text(state, horizontal_align, origin)),
        steps,
    }
}
