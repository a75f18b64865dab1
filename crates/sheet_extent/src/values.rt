// Edges, and what the sheet is asked for.
use types::framebuffer::PixelFormat;
use types::geometry::Point;
use types::style::{HorizontalAlignment, VerticalPosition};

// The edges of all readings, drawn at (0, 0).
#[derive(Clone, Copy, Debug, Default, PartialEq, Eq)]
pub struct Extent {
    pub left: i64,
    pub top: i64,
    pub right: i64,
    pub bottom: i64,
}

// What the sheet is asked for. Without a place to be `at` the readings stand where all of them are seen. `narrow` puts a fault in:
// one column too few is filled. The default is what no word asks for.
#[derive(Clone, Copy, Debug, Default, PartialEq, Eq)]
pub struct Options {
    pub vertical_pos: VerticalPosition,
    pub horizontal_align: HorizontalAlignment,
    pub at: Option<Point>,
    pub format: PixelFormat,
    pub narrow: bool,
}
