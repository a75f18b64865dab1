// Where a glyph lies, and by how much an aligned line is moved.
ghost use Rattle.std.specs.Prelude.{◌≡◌, ◌+ℤ◌, ◌-ℤ◌};
ghost use Rattle.definitions.specs.Text.{box_at, horizontal_offset};
ghost use Rattle.layout.specs.Offsets.{center_offset};
ghost use Rattle.layout.specs.Ranges.{Near, LineInReach};

use types::geometry::{Point, Rectangle, Size};
use types::glyph_reader::GlyphReader;
use types::style::HorizontalAlignment;

// A coordinate moved by an offset or an advance of a glyph.
pub fn moved(x: i32, by: i8) -> i32
    requires { Near x }
    ensures { result ≡ x +ℤ by }
{
    x + i32::from(by)
}

// The top edge of a box of that height: the offset counts upwards, from the place to the box's lowest row.
pub fn top(y: i32, height: i32, offset_y: i8) -> i32
    requires { Near y × Near height }
    ensures { result ≡ y -ℤ (height +ℤ offset_y) }
{
    y - (height + i32::from(offset_y))
}

// The bounding box of a glyph at a place. A glyph without pixels has none.
pub fn get_glyph_bounding_box(glyph: GlyphReader, x: i32, y: i32) -> Option<Rectangle>
    requires { Near x × Near y }
    ensures { result ≡ box_at x y glyph }
{
    if (glyph.glyph_width == 0) | (glyph.glyph_height == 0) {
        return None;
    }
    Some(Rectangle {
        top_left: Point {
            x: moved(x, glyph.offset_x),
            y: top(y, i32::from(glyph.glyph_height), glyph.offset_y),
        },
        size: Size {
            width: u32::from(glyph.glyph_width),
            height: u32::from(glyph.glyph_height),
        },
    })
}

// Center halves the width alone, and rounds down.
fn compute_center_offset(line_box: Option<Rectangle>) -> i32
    requires { LineInReach line_box }
    ensures { result ≡ center_offset line_box }
{
    let Some(rectangle) = line_box else {
        return 0;
    };
    let top_left = rectangle.top_left;
    let size = rectangle.size;
    -(((size.width / 2) as i32) + top_left.x)
}

// By how much a line is moved to the right, its box and its advance being counted from its start.
pub fn compute_horizontal_offset(
    horizontal_align: HorizontalAlignment,
    line_box: Option<Rectangle>,
    advance: i32,
) -> i32
    requires { LineInReach line_box × Near advance }
    ensures { result ≡ horizontal_offset horizontal_align line_box advance }
{
    match horizontal_align {
        HorizontalAlignment::Left => 0,
        HorizontalAlignment::Center => compute_center_offset(line_box),
        HorizontalAlignment::Right => -(advance - 1),
    }
}
