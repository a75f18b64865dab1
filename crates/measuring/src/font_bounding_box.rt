// The font's bounding box: where the largest glyph could lie.
ghost use Rattle.std.specs.Prelude.{◌≡◌};
ghost use Rattle.definitions.specs.Refusals.{outcome};
ghost use Rattle.definitions.specs.Calls.{font_box, font_bounding_box};

use font_reader::new_from_raw_data;
use layout::render_actions::top;
use types::error::Error;
use types::font_reader::FontReader;
use types::geometry::{Point, Rectangle, Size};
use types::style::VerticalPosition;
use vertical_offset::compute_vertical_offset;

fn font_box(head: FontReader, vertical_pos: VerticalPosition) -> Rectangle
    ensures { result ≡ font_box head vertical_pos }
{
    let baseline = compute_vertical_offset(vertical_pos, head.ascent, head.descent, 0, 0);
    let y = top(
        baseline,
        i32::from(head.font_bounding_box_height),
        head.font_bounding_box_y_offset,
    );
    Rectangle {
        top_left: Point {
            x: i32::from(head.font_bounding_box_x_offset),
            y,
        },
        size: Size {
            width: u32::from(head.font_bounding_box_width.unsigned_abs()),
            height: u32::from(head.font_bounding_box_height.unsigned_abs()),
        },
    }
}

// The bounding box of all glyphs at (0, 0), or the refusal.
pub fn get_font_bounding_box(
    font: &[u8],
    vertical_pos: VerticalPosition,
) -> Result<Rectangle, Error>
    ensures { outcome result ≡ font_bounding_box font.now vertical_pos }
{
    let head = new_from_raw_data(font)?;
    Ok(font_box(head, vertical_pos))
}
