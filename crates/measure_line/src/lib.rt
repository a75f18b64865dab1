// The line that the measuring program prints (SPECIFICATION, Measuring program).
#![tactic(auto)]

ghost use Rattle.std.specs.Prelude.{◌≡◌};
ghost use Rattle.definitions.specs.Refusals.{outcome};
ghost use Rattle.measure_line.specs.Measured.{measured_by_program, measuring_line};

use answer_line::{LINE_ROOM, result_line};
use font_reader::new_from_raw_data;
use measuring::rendered_dimensions::get_rendered_dimensions;
use numbers::text::Text;
use types::error::Error;
use types::geometry::{Point, RenderedDimensions};
use types::style::{Placement, VerticalPosition};

// The longest font that the program takes; the calls take longer ones.
const MAX_FONT_SIZE: usize = 65_536;

#[tactic(auto, unfolding(crate::specs::Measured::measured_by_program))]
fn measured(font: &[u8], text: &[u8]) -> Result<RenderedDimensions, Error>
    ensures { outcome result ≡ measured_by_program font.now text.now }
{
    if MAX_FONT_SIZE < font.len() {
        return Err(Error::FontLength);
    }
    let head = new_from_raw_data(font)?;
    let placement = Placement {
        position: Point::default(),
        line_height: head.line_height,
        ignore_unknown_chars: false,
    };
    get_rendered_dimensions(font, text, placement, VerticalPosition::Baseline).result
}

// The line of a text in a font.
#[tactic(auto, unfolding(crate::specs::Measured::measuring_line))]
pub fn measure_line(font: &[u8], text: &[u8]) -> Text<LINE_ROOM>
    ensures { result ≡ measuring_line font.now text.now }
{
    result_line(measured(font, text))
}
