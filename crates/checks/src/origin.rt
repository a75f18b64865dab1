// Where a text begins: its place, moved by the anchor. Of the header only the ascent and the descent are needed.
ghost use Rattle.std.specs.Prelude.{◌≡◌, false};
ghost use Rattle.definitions.specs.Refusals.{outcome};
ghost use Rattle.definitions.specs.Limits.{text_cause, position_cause};
ghost use Rattle.definitions.specs.Calls.{plain};
ghost use Rattle.checks.specs.Origins.{origin_by, checked_origin, pen_at};

use crate::limits::{has_bad_position, has_bad_text};
use content::text::get_newline_count;
use font_reader::opened::OpenedFont;
use types::error::Error;
use types::geometry::Point;
use types::style::{Placement, VerticalPosition};
use vertical_offset::compute_vertical_offset;

// What a checked text is set with: where it begins, how far below a line the next one lies, and whether unknown characters are
// skipped.
#[derive(Clone, Copy, Debug, PartialEq, Eq)]
pub struct Pen {
    pub origin: Point,
    pub line_height: u32,
    pub ignore_unknown_chars: bool,
}

impl Pen {
    pub fn new(origin: Point, placement: Placement) -> Pen
        ensures { result ≡ pen_at origin placement }
    {
        Pen {
            origin,
            line_height: placement.line_height,
            ignore_unknown_chars: placement.ignore_unknown_chars,
        }
    }
}

// What a text that passed its tests is set with: its font, opened, and its pen.
#[derive(Clone, Copy, Debug, PartialEq, Eq)]
pub struct Setup<'a> {
    pub font: OpenedFont<'a>,
    pub pen: Pen,
}

impl<'a> Setup<'a> {
    ghost use Rattle.checks.specs.Origins.{place_causes};
    ghost use Rattle.checks.specs.Setups.{Tests, SetFor};

    // What the text is set with in that font, or cause 4 or 5, in this order (SPECIFICATION, Refusals).
    // Inlined: a call of its own hands the font and the setup on through memory, 36 to 40 instructions more a text.
    #[inline(always)]
    pub fn checked(
        font: OpenedFont<'a>,
        text: &[u8],
        placement: Placement,
        vertical_pos: VerticalPosition,
    ) -> Result<Setup<'a>, Error>
        ensures { Tests (place_causes (plain text.now placement vertical_pos))
            (SetFor font.entry.bytes.now (plain text.now placement vertical_pos)) result }
    {
        let head = font.head;
        let origin = checked_origin(head.ascent, head.descent, text, placement, vertical_pos)?;
        let pen = Pen::new(origin, placement);
        Ok(Setup { font, pen })
    }
}

pub fn text_origin(
    ascent: i8,
    descent: i8,
    text: &[u8],
    placement: Placement,
    vertical_pos: VerticalPosition,
) -> Point
    requires { ((text_cause text.now).applies ≡ false) × ((position_cause placement.position placement.line_height
        ).applies ≡ false) }
    ensures { result ≡ origin_by ascent descent (plain text.now placement vertical_pos) }
{
    let position = placement.position;
    let newline_count = get_newline_count(text);
    let offset = compute_vertical_offset(
        vertical_pos,
        ascent,
        descent,
        newline_count,
        placement.line_height,
    );
    Point {
        x: position.x,
        y: position.y + offset,
    }
}

// The origin, or cause 4 or 5, in this order (SPECIFICATION, Refusals).
pub fn checked_origin(
    ascent: i8,
    descent: i8,
    text: &[u8],
    placement: Placement,
    vertical_pos: VerticalPosition,
) -> Result<Point, Error>
    ensures { outcome result ≡ checked_origin ascent descent (plain text.now placement vertical_pos) }
{
    let bad_text = has_bad_text(text);
    let bad_position = has_bad_position(placement);
    if bad_text {
        return Err(Error::TextEncoding);
    }
    if bad_position {
        return Err(Error::PositionOrLineHeight);
    }
    Ok(text_origin(ascent, descent, text, placement, vertical_pos))
}
