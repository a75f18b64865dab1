// Which part of a glyph lies on the framebuffer.
#![tactic(auto)]

ghost use Rattle.std.specs.Prelude.{◌≡◌, leb};
ghost use Rattle.visible_part.specs.Visible.{SideFits, CornerFits, visible, visible_part};

use framebuffer::clamp;
use types::framebuffer::Framebuffer;
use types::geometry::Point;
use types::glyph_reader::GlyphReader;

// Columns or rows of a glyph, from `start` to before `end`: a range that is Copy, which std's is not.
#[derive(Clone, Copy, Debug, PartialEq, Eq)]
pub struct Visible {
    pub start: usize,
    pub end: usize,
}

impl Visible {
    pub fn is_empty(self) -> bool
        ensures { result ≡ leb self.end self.start }
    {
        self.end <= self.start
    }
}

// The columns and rows of a glyph that lie on the framebuffer, and the column and row of the framebuffer where it begins.
#[derive(Clone, Copy, Debug, PartialEq, Eq)]
pub struct VisiblePart {
    pub columns: Visible,
    pub rows: Visible,
    pub left: usize,
    pub top: usize,
}

// The columns of a glyph of that width that lie on a framebuffer of the width `limit`, the first column of the glyph being its
// column `start`. Rows go the same way, by the heights.
fn get_visible(start: i32, size: u8, limit: usize) -> Visible
    requires { SideFits start limit }
    ensures { result ≡ visible start size limit }
{
    let start = i64::from(start);
    let size = usize::from(size);
    Visible {
        start: clamp(-start, size),
        end: clamp(limit as i64 - start, size),
    }
}

// The visible part of a glyph whose top left corner that is.
pub fn get_visible_part(corner: Point, glyph: GlyphReader, framebuffer: Framebuffer) -> VisiblePart
    requires { CornerFits corner framebuffer }
    ensures { result ≡ visible_part corner glyph framebuffer }
{
    VisiblePart {
        columns: get_visible(corner.x, glyph.glyph_width, framebuffer.width),
        rows: get_visible(corner.y, glyph.glyph_height, framebuffer.height),
        left: clamp(i64::from(corner.x), framebuffer.width),
        top: clamp(i64::from(corner.y), framebuffer.height),
    }
}
