// Lays the ground: rubbish, then the background in the box of every reading.
ghost use Rattle.std.specs.Prelude.{◌≡◌, length};
ghost use Rattle.definitions.specs.Framebuffer.{BufferFits};
ghost use Rattle.redraw_checks.specs.Drawing.{measured};
ghost use Rattle.redraw.specs.Redraw.{cleared_by};
ghost use Rattle.sheet_ground.specs.Readings.{reading, PlaceFits};
ghost use Rattle.sheet_ground.specs.Ground.{rubbish, GroundLaid};

use crate::texts::{COUNT, measure_reading};
use framebuffer::fill::fill_box;
use types::place::Place;
use types::style::Placement;

fn fill_with_rubbish(buffer: &mut [u8])
    ensures { buffer.new ≡ rubbish (length buffer.old) }
{
    for (i, pixel) in buffer.iter_mut().enumerate() {
        *pixel = (96 + i % 101) as u8;
    }
}

// Fills the reading's box with the background. A refused reading has none.
fn clear_reading(font: &[u8], k: usize, place: Place, buffer: &mut [u8])
    requires { BufferFits (length buffer.old) place.framebuffer }
    ensures { buffer.new ≡ cleared_by place.framebuffer place.background
        (measured font.now (reading place k)) buffer.old }
{
    // spelled out three times (readings, redraw_checks): no plainer by a function, whose equation two callers' proofs would carry
    let placement = Placement {
        position: place.position,
        line_height: place.line_height,
        ignore_unknown_chars: false,
    };
    let vertical_pos = place.style.vertical_pos;
    let measured = measure_reading(font, k, placement, vertical_pos, place.horizontal_align);
    if let Ok(dimensions) = measured {
        fill_box(
            dimensions.bounding_box,
            place.background,
            place.framebuffer,
            buffer,
        );
    }
}

pub fn lay_ground(font: &[u8], place: Place, buffer: &mut [u8])
    requires { PlaceFits (length buffer.old) place }
    ensures { GroundLaid font.now place buffer.new }
{
    fill_with_rubbish(buffer);
    for k in 0..COUNT {
        clear_reading(font, k, place, buffer);
    }
}
