// The readings: -45.0 to +45.0 degrees in tenths, numbered from 0.
ghost use Rattle.std.specs.Prelude.{◌≡◌};
ghost use Rattle.definitions.specs.Refusals.{outcome};
ghost use Rattle.definitions.specs.Font.{u8g2};
ghost use Rattle.definitions.specs.Calls.{request, measure};
ghost use Rattle.sheet_ground.specs.Readings.{reading_text};

use angles::{ANGLE_ROOM, angle_text};
use measuring::aligned_dimensions::aligned_dimensions;
use numbers::text::Text;
use types::error::Error;
use types::geometry::RenderedDimensions;
use types::style::{HorizontalAlignment, Placement, VerticalPosition};

pub const COUNT: usize = 901;

// The reading's text; a number past the last has none.
pub fn reading_text(k: usize) -> Text<ANGLE_ROOM>
    ensures { result ≡ reading_text k }
{
    if COUNT <= k {
        return Text::new();
    }
    angle_text((k as i32) - 450)
}

pub fn measure_reading(
    font: &[u8],
    k: usize,
    placement: Placement,
    vertical_pos: VerticalPosition,
    horizontal_align: HorizontalAlignment,
) -> Result<RenderedDimensions, Error>
    ensures { outcome result ≡ measure (u8g2 font.now)
        (request (reading_text k) placement vertical_pos horizontal_align) }
{
    let text = reading_text(k);
    let report = aligned_dimensions(
        font,
        text.as_bytes(),
        placement,
        vertical_pos,
        horizontal_align,
    );
    report.result
}
