// The bounding box that a text has when each of its lines is aligned.
ghost use Rattle.std.specs.Prelude.{◌≡◌};
ghost use Rattle.definitions.specs.Refusals.{outcome};
ghost use Rattle.definitions.specs.Font.{u8g2};
ghost use Rattle.definitions.specs.Calls.{request, measure_aligned};
ghost use Rattle.definitions.specs.Sums.{sums};

use crate::aligned_dimensions::aligned_dimensions;
use lookup_sums::box_alone;
use types::geometry::Rectangle;
use types::results::Report;
use types::style::{HorizontalAlignment, Placement, VerticalPosition};

// The bounding box of the aligned text at the position, or the refusal, and the steps of its lookups. It has no advance
// (SPECIFICATION, Alignment).
pub fn get_rendered_dimensions_aligned(
    font: &[u8],
    text: &[u8],
    placement: Placement,
    vertical_pos: VerticalPosition,
    horizontal_align: HorizontalAlignment,
) -> Report<Option<Rectangle>>
    ensures answered { outcome result.result ≡ measure_aligned (u8g2 font.now)
        (request text.now placement vertical_pos horizontal_align) }
    ensures summed { result.steps ≡ sums (u8g2 font.now) text.now (measure_aligned
        (u8g2 font.now) (request text.now placement vertical_pos horizontal_align)) }
{
    box_alone(aligned_dimensions(font, text, placement, vertical_pos, horizontal_align))
}
