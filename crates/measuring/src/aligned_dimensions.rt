// The dimensions of an aligned text, which the public calls read their answers off.
ghost use Rattle.definitions.specs.Font.{u8g2};
ghost use Rattle.definitions.specs.Calls.{plain, request, measure_causes};
ghost use Rattle.checks.specs.Setups.{Tests, SetFor};
ghost use Rattle.measuring.specs.Aligned.{AlignedMeasured};

use checks::origin::Setup;
use font_reader::opened::OpenedFont;
use lookup_sums::refused;
use text_lines::measure_lines;
use types::error::Error;
use types::geometry::RenderedDimensions;
use types::results::Report;
use types::style::{HorizontalAlignment, Placement, VerticalPosition};

// Causes 1, 2, 4 and 5, in this order (SPECIFICATION, Refusals).
fn check<'a>(
    font: &'a [u8],
    text: &[u8],
    placement: Placement,
    vertical_pos: VerticalPosition,
) -> Result<Setup<'a>, Error>
    ensures { Tests (measure_causes (u8g2 font.now) (plain text.now placement vertical_pos))
        (SetFor font.now (plain text.now placement vertical_pos)) result }
{
    let font = OpenedFont::open(font)?;
    Setup::checked(font, text, placement, vertical_pos)
}

// The dimensions of the aligned text, or the refusal, and the steps of its lookups.
pub fn aligned_dimensions(
    font: &[u8],
    text: &[u8],
    placement: Placement,
    vertical_pos: VerticalPosition,
    horizontal_align: HorizontalAlignment,
) -> Report<RenderedDimensions>
    ensures { AlignedMeasured font.now
        (request text.now placement vertical_pos horizontal_align) result }
{
    // A `Report` is no `Result`, so no `?` hands the refusal on.
    match check(font, text, placement, vertical_pos) {
        Err(error) => refused(error),
        Ok(setup) => measure_lines(&setup.font, text, horizontal_align, setup.pen),
    }
}
