// The line that a measuring call's outcome is printed as (SPECIFICATION, Measuring program). printing's Display types say the same
// words; but what `write!` promises holds only where it does not fail, and this line is made of every outcome.
#![tactic(auto)]

ghost use Rattle.std.specs.Prelude.{◌≡◌, ◌++◌, ◌+◌, ◌≤◌, Some, length};
ghost use Rattle.definitions.specs.Refusals.{success, refusal, outcome};
ghost use Rattle.answer_line.specs.Line.{spaced, box_words, outcome_line};

use numbers::text::Text;
use types::error::Error;
use types::geometry::{Rectangle, RenderedDimensions};
use utils::error::{error_code_point, error_number};

// The longest line: `ok`, four signed numbers of 11 characters, two unsigned ones of 10, a space before
// each, and the newline.
pub const LINE_ROOM: usize = 73;

// Left, top, width and height.
fn push_rectangle(line: &mut Text<LINE_ROOM>, r: Rectangle)
    requires { length line.old + 46 ≤ LINE_ROOM }
    ensures words { line.new ≡ line.old ++ spaced (box_words (Some r)) }
    ensures few { length line.new ≤ length line.old + 46 }
{
    line.push_signed(r.top_left.x);
    line.push_signed(r.top_left.y);
    line.push_unsigned(r.size.width);
    line.push_unsigned(r.size.height);
}

fn push_bounding_box(line: &mut Text<LINE_ROOM>, bounding_box: Option<Rectangle>)
    requires { length line.old + 46 ≤ LINE_ROOM }
    ensures words { line.new ≡ line.old ++ spaced (box_words bounding_box) }
    ensures few { length line.new ≤ length line.old + 46 }
{
    match bounding_box {
        None => line.push_bytes(b" none"),
        Some(r) => push_rectangle(line, r),
    }
}

fn success_line(d: RenderedDimensions) -> Text<LINE_ROOM>
    ensures { result ≡ outcome_line (success d) }
{
    let mut line = Text::new();
    line.push_bytes(b"ok");
    line.push_signed(d.advance.x);
    line.push_signed(d.advance.y);
    push_bounding_box(&mut line, d.bounding_box);
    line.push(b'\n');
    line
}

fn refusal_line(e: Error) -> Text<LINE_ROOM>
    ensures { result ≡ outcome_line (refusal e) }
{
    let mut line = Text::new();
    line.push_bytes(b"no");
    line.push_unsigned(error_number(e));
    line.push_unsigned(error_code_point(e));
    line.push(b'\n');
    line
}

pub fn result_line(res: Result<RenderedDimensions, Error>) -> Text<LINE_ROOM>
    ensures { result ≡ outcome_line (outcome res) }
{
    match res {
        Ok(d) => success_line(d),
        Err(e) => refusal_line(e),
    }
}
