// The step of the gauge, or the one with a fault put in.
#![tactic(auto)]

ghost use Rattle.std.specs.Prelude.{◌≡◌};
ghost use Rattle.definitions.specs.Refusals.{outcome};
ghost use Rattle.redraw_checks.specs.Drawing.{asked, ground_of};
ghost use Rattle.redraw.specs.Redraw.{redrawn};
ghost use Rattle.faulty_step.specs.Fault.{narrowed_box, step_buffer};

use redraw::reading::{redraw, redraw_filling};
use types::error::Error;
use types::geometry::{Rectangle, RenderedDimensions, Size};
use types::place::Place;

// What is tried: the place of the readings, and whether with a fault put in, one column too few being filled.
#[derive(Clone, Copy, Debug, PartialEq, Eq)]
pub struct Trial {
    pub place: Place,
    pub narrow: bool,
}

// A box one column too narrow.
fn narrowed(bounding_box: Option<Rectangle>) -> Option<Rectangle>
    ensures { result ≡ narrowed_box bounding_box }
{
    bounding_box.map(|r| Rectangle {
        size: Size {
            width: r.size.width.saturating_sub(1),
            ..r.size
        },
        ..r
    })
}

// The step of the gauge, or the one with the fault.
pub fn redraw_on(
    font: &[u8],
    old_text: &[u8],
    new_text: &[u8],
    trial: Trial,
    screen: &mut [u8],
) -> Result<RenderedDimensions, Error>
    ensures answered { outcome result ≡ redrawn font.now old_text.now
        (asked trial.place new_text.now) trial.place.background
        (ground_of trial.place screen.old) }
    ensures shown { screen.new ≡ step_buffer trial.narrow font.now old_text.now
        (asked trial.place new_text.now) trial.place.background
        (ground_of trial.place screen.old) }
{
    // a test and no closure of the caller's: without the fault it is the very step of the gauge
    let report = if trial.narrow {
        redraw_filling(font, old_text, new_text, trial.place, narrowed, screen)
    } else {
        redraw(font, old_text, new_text, trial.place, screen)
    };
    report.result
}
