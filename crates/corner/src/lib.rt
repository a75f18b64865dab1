// A text drawn with its box in the framebuffer's corner.
#![tactic(auto)]

ghost use Rattle.std.specs.Prelude.{◌≡◌, pos, negsuc, ◌-ℤ◌, length, ◌≤ℤ◌};
ghost use Rattle.definitions.specs.Refusals.{outcome};
ghost use Rattle.corner.specs.Corners.{Cornered, CornerDrawn};

use renderer::aligned_drawing::aligned_drawing;
use types::error::Error;
use types::framebuffer::Framebuffer;
use types::geometry::{Point, Rectangle, RenderedDimensions};
use types::style::{FontColor, FontStyle, HorizontalAlignment, Placement, VerticalPosition};

// How the lines of a text are set: how far below a line the next one lies, and which side of each stands at the text's x.
#[derive(Clone, Copy, Debug, PartialEq, Eq)]
pub struct Setting {
    pub line_height: u32,
    pub align: HorizontalAlignment,
}

fn opposite(z: i32) -> i32
    requires { negsuc 1048575 ≤ℤ z }
    ensures { result ≡ pos 0 -ℤ z }
{
    -z
}

// Draws a text whose box at (0, 0) is the rectangle at the opposite of its corner.
pub fn draw_at_corner(
    font: &[u8],
    text: &[u8],
    setting: Setting,
    rectangle: Rectangle,
    color: FontColor,
    framebuffer: Framebuffer,
    buffer: &mut [u8],
) -> Result<RenderedDimensions, Error>
    requires { Cornered font.now text.now setting color rectangle framebuffer (length buffer.old) }
    ensures { CornerDrawn font.now text.now setting color framebuffer.format rectangle buffer.old
        buffer.new (outcome result) }
{
    let placement = Placement {
        position: Point {
            x: opposite(rectangle.top_left.x),
            y: opposite(rectangle.top_left.y),
        },
        line_height: setting.line_height,
        ignore_unknown_chars: false,
    };
    let style = FontStyle {
        color,
        vertical_pos: VerticalPosition::Baseline,
    };
    let align = setting.align;
    let report = aligned_drawing(font, text, placement, style, align, framebuffer, buffer);
    report.result
}
