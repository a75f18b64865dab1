// A text drawn on a framebuffer of its own, the smallest that holds all of it.
ghost use Rattle.std.specs.Prelude.{◌≡◌, ◌≤◌, length};
ghost use Rattle.definitions.specs.Header.{header};
ghost use Rattle.corner.specs.Whole.{setting_of};
ghost use Rattle.pictures.specs.declared.whole.DrawError.TheVariants.{Refused};
ghost use Rattle.pictures.specs.Drawings.{Drawable, Buffered, IsDrawing};

use corner::{Setting, draw_at_corner};
use font_reader::new_from_raw_data;
use measuring::aligned_dimensions::aligned_dimensions;
use pixels::size::{room_for, size_in_bytes};
use printing::RefusalLine;
use std::fmt;
use types::error::Error;
use types::framebuffer::PixelFormat;
use types::geometry::{Point, Rectangle, RenderedDimensions, Size};
use types::style::{FontColor, HorizontalAlignment, Placement, VerticalPosition};

// What is answered, and the size of the text's box, if it has a pixel. The framebuffer's bytes begin the buffer; a slice of them
// would lend it out until the drawing is dropped (fixed memory: it is the caller's), and what it then holds is what is proved.
#[derive(Clone, Copy, Debug, PartialEq, Eq)]
pub struct Drawing {
    pub dimensions: RenderedDimensions,
    pub size: Option<Size>,
}

// Why a text is not drawn.
#[derive(Clone, Copy, Debug, PartialEq, Eq)]
pub enum DrawError {
    // its box does not fit the largest framebuffer
    TooLarge(Rectangle),
    Refused(Error),
}

// What a framebuffer cannot hold, or the refusal's line.
impl fmt::Display for DrawError {
    fn fmt<W: fmt::Write>(&self, f: &mut fmt::Formatter<W>) -> fmt::Result {
        match self {
            DrawError::TooLarge(rectangle) => {
                let Size { width, height } = rectangle.size;
                write!(
                    f,
                    "the text takes {width} by {height} pixels, and a framebuffer has at most 256 by 256"
                )
            }
            DrawError::Refused(refusal) => write!(f, "{}", RefusalLine(*refusal)),
        }
    }
}

impl std::error::Error for DrawError {}

impl From<Error> for DrawError {
    ghost from_gives = { λ error e. e ≡ Refused error };

    fn from(error: Error) -> DrawError {
        DrawError::Refused(error)
    }
}

// Draws a text whose box at (0, 0) is the rectangle, if a framebuffer can be so large.
fn draw_box(
    font: &[u8],
    text: &[u8],
    setting: Setting,
    rectangle: Rectangle,
    color: FontColor,
    format: PixelFormat,
    buffer: &mut [u8],
) -> Result<Drawing, DrawError>
    requires { Buffered font.now text.now setting color format rectangle (length buffer.old) }
    ensures { IsDrawing font.now text.now setting color format buffer.old
        buffer.new result }
{
    let size = rectangle.size;
    if 256 < size.width || 256 < size.height {
        return Err(DrawError::TooLarge(rectangle));
    }
    let framebuffer = room_for(format, size.width as usize, size.height as usize);
    let part = &mut buffer[..size_in_bytes(framebuffer)];
    let dimensions = draw_at_corner(font, text, setting, rectangle, color, framebuffer, part)?;
    Ok(Drawing {
        dimensions,
        size: Some(size),
    })
}

// Measures a text of an opened font at (0, 0) and draws it by its box.
fn draw_measured(
    font: &[u8],
    text: &[u8],
    setting: Setting,
    color: FontColor,
    format: PixelFormat,
    buffer: &mut [u8],
) -> Result<Drawing, DrawError>
    requires { (setting.line_height ≤ 128) × Drawable color format (length buffer.old) }
    ensures { IsDrawing font.now text.now setting color format buffer.old
        buffer.new result }
{
    let placement = Placement {
        position: Point { x: 0, y: 0 },
        line_height: setting.line_height,
        ignore_unknown_chars: false,
    };
    let align = setting.align;
    let measured = aligned_dimensions(font, text, placement, VerticalPosition::Baseline, align);
    let dimensions = measured.result?;
    match dimensions.bounding_box {
        None => Ok(Drawing {
            dimensions,
            size: None,
        }),
        Some(rectangle) => draw_box(font, text, setting, rectangle, color, format, buffer),
    }
}

// Draws the text, its lines aligned and the font's default line height apart, into the beginning of a buffer for the largest
// framebuffer. A plain text is aligned Left.
pub fn draw_whole(
    font: &[u8],
    text: &[u8],
    align: HorizontalAlignment,
    color: FontColor,
    format: PixelFormat,
    buffer: &mut [u8],
) -> Result<Drawing, DrawError>
    requires { Drawable color format (length buffer.old) }
    ensures { IsDrawing font.now text.now
        (setting_of (header font.now).line_height align) color format buffer.old buffer.new result }
{
    let head = new_from_raw_data(font)?;
    let setting = Setting {
        line_height: head.line_height,
        align,
    };
    draw_measured(font, text, setting, color, format, buffer)
}
