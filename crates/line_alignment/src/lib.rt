// Where the letters of an aligned line begin.
#![tactic(auto)]

ghost use Rattle.std.specs.Prelude.{◌≡◌, IfOk};
ghost use Rattle.definitions.specs.Refusals.{outcome, success, and_then};
ghost use Rattle.definitions.specs.Utf8.{newlines};
ghost use Rattle.definitions.specs.Calls.{code_points_of};
ghost use Rattle.checks.specs.Origins.{Checked};
ghost use Rattle.layout.specs.Ranges.{Near};
ghost use Rattle.line_alignment.specs.Pens.{MovesPen, moved_by, pen_of_line, PenAligned};

use checks::origin::Pen;
use font_reader::opened::OpenedFont;
use layout::render_actions::compute_horizontal_offset;
use text_lines::measure_lines;
use types::error::Error;
use types::geometry::{Point, RenderedDimensions};
use types::results::Report;
use types::style::HorizontalAlignment;

fn move_pen(pen: Pen, x: i32) -> Pen
    requires { Near pen.origin.x × Near x }
    ensures { result ≡ moved_by pen x }
{
    let origin = pen.origin;
    Pen {
        origin: Point {
            x: origin.x + x,
            y: origin.y,
        },
        ..pen
    }
}

// The pen of a line, by what the line comes to from its own start.
fn pen_by(
    measured: Result<RenderedDimensions, Error>,
    horizontal_align: HorizontalAlignment,
    pen: Pen,
) -> Result<Pen, Error>
    requires { IfOk measured (MovesPen horizontal_align pen) }
    ensures { outcome result
        ≡ and_then (outcome measured) (λ line. success (pen_of_line horizontal_align pen line)) }
{
    let line = measured?;
    let offset = compute_horizontal_offset(horizontal_align, line.bounding_box, line.advance.x);
    Ok(move_pen(pen, offset))
}

// The pen of a line, or why the line is stopped: the line is measured from its own start, and the pen moved by its offset. It reads
// no runs.
pub fn align_pen(
    font: &OpenedFont,
    line: &[u8],
    horizontal_align: HorizontalAlignment,
    pen: Pen,
) -> Report<Pen>
    requires { Checked line.now pen.origin pen.line_height
        × (newlines (code_points_of line.now) ≡ 0) }
    ensures { PenAligned font.now.bytes.now line.now horizontal_align pen result }
{
    let start = Pen {
        origin: Point { x: 0, y: 0 },
        ..pen
    };
    let measured = measure_lines(font, line, HorizontalAlignment::Left, start);
    Report {
        result: pen_by(measured.result, horizontal_align, pen),
        steps: measured.steps,
    }
}
