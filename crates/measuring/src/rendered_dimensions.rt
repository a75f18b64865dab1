// The dimensions that a text has when it is drawn.
ghost use Rattle.std.specs.Prelude.{◌≡◌};
ghost use Rattle.definitions.specs.Refusals.{outcome};
ghost use Rattle.definitions.specs.Font.{u8g2};
ghost use Rattle.definitions.specs.Calls.{plain, measure};
ghost use Rattle.definitions.specs.Sums.{sums};

use crate::aligned_dimensions::aligned_dimensions;
use types::geometry::RenderedDimensions;
use types::results::Report;
use types::style::{HorizontalAlignment, Placement, VerticalPosition};

// The dimensions of the text as it would be drawn at the position, or the refusal; and the steps of its lookups, whichever it is.
pub fn get_rendered_dimensions(
    font: &[u8],
    text: &[u8],
    placement: Placement,
    vertical_pos: VerticalPosition,
) -> Report<RenderedDimensions>
    ensures answered { outcome result.result ≡ measure (u8g2 font.now)
        (plain text.now placement vertical_pos) }
    ensures summed { result.steps ≡ sums (u8g2 font.now) text.now
        (measure (u8g2 font.now) (plain text.now placement vertical_pos)) }
{
    aligned_dimensions(
        font,
        text,
        placement,
        vertical_pos,
        HorizontalAlignment::Left,
    )
}
