// How a text is placed and coloured.
use crate::geometry::Point;

// Which height of the font stands at the given y (SPECIFICATION, Anchors).
#[derive(Clone, Copy, Debug, Default, PartialEq, Eq)]
pub enum VerticalPosition {
    #[default]
    Baseline,
    Top,
    Center,
    Bottom,
}

// Which side of each line stands at the given x.
#[derive(Clone, Copy, Debug, Default, PartialEq, Eq)]
pub enum HorizontalAlignment {
    #[default]
    Left,
    Center,
    Right,
}

// The colour of the pixels. Transparent leaves the background pixels of a glyph as they
// were; WithBackground fills them, which not every font allows.
#[derive(Clone, Copy, Debug, PartialEq, Eq)]
pub enum FontColor {
    Transparent(u8),
    WithBackground { fg: u8, bg: u8 },
}

#[derive(Clone, Copy, Debug, PartialEq, Eq)]
pub struct FontStyle {
    pub color: FontColor,
    pub vertical_pos: VerticalPosition,
}

// Where a text stands and how it goes on: its place, how far below a line the next one lies, and whether characters that the font
// does not have are skipped.
#[derive(Clone, Copy, Debug, PartialEq, Eq)]
pub struct Placement {
    pub position: Point,
    pub line_height: u32,
    pub ignore_unknown_chars: bool,
}
