// A place at which all readings are seen, or the one that is asked for, and a framebuffer for it.
ghost use Rattle.std.specs.Prelude.{◌≡◌};
ghost use Rattle.definitions.specs.Framebuffer.{size_in_bytes};
ghost use Rattle.sheet_ground.specs.Readings.{PlaceFits};
ghost use Rattle.sheet_extent.specs.Extent.{extent_of, position_for, background_of, place_for, Uncut, AllSeen};

use crate::extent::{inside, measure_all, side};
use crate::values::{Extent, Options};
use pixels::size::room_for;
use types::framebuffer::PixelFormat;
use types::geometry::Point;
use types::place::Place;
use types::style::{FontColor, FontStyle};

const INK: u8 = 0;

// Of a packed framebuffer it is the one colour beside the ink's.
fn background(format: PixelFormat) -> u8
    ensures { result ≡ background_of format }
{
    match format {
        PixelFormat::Bytes => 255,
        PixelFormat::Packed => 1,
    }
}

// Where the readings stand: at the place that is asked for, or where all of them are seen.
fn position_for(at: Option<Point>, extent: Extent) -> Point
    ensures { result ≡ position_for at extent }
{
    at.unwrap_or(Point {
        x: inside(extent.left),
        y: inside(extent.top),
    })
}

// The framebuffer for it. Where all readings are to be seen and no side is cut off at 256 pixels, all are.
pub fn place_for(font: &[u8], options: Options) -> Place
    ensures place { result ≡ place_for font.now options }
    ensures fits { PlaceFits (size_in_bytes result.framebuffer) result }
    ensures seen { options.at ≡ None → Uncut result (extent_of font.now options.vertical_pos
        options.horizontal_align 901)
        → AllSeen font.now result }
{
    let Options {
        vertical_pos,
        horizontal_align,
        at,
        format,
        narrow: _,
    } = options;
    let extent = measure_all(font, vertical_pos, horizontal_align);
    let position = position_for(at, extent);
    let width = side(position.x, extent.right);
    let height = side(position.y, extent.bottom);
    Place {
        position,
        style: FontStyle {
            color: FontColor::Transparent(INK),
            vertical_pos,
        },
        horizontal_align,
        line_height: 0,
        background: background(format),
        framebuffer: room_for(format, width, height),
    }
}
