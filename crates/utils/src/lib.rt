// Joining the bounding boxes of a text's glyphs (SPECIFICATION, Texts); and, in modules of their own,
// what is answered with a refusal, and the 16-bit numbers of a font.
#![tactic(auto)]

pub mod big_endian;
pub mod error;

ghost use Rattle.std.specs.Prelude.{◌≡◌};
ghost use Rattle.definitions.specs.Geometry.{span_length, join_rectangles, join, RectangleInReach, InReach};
ghost use Rattle.utils.specs.Spans.{SpansInReach};

use types::geometry::{Point, Rectangle, Size};

// The length of the smallest span over two, each a start and a length: the columns of two
// rectangles, or their rows.
fn span_length(start1: i32, start2: i32, length1: u32, length2: u32) -> u32
    requires { SpansInReach start1 start2 length1 length2 }
    ensures { result ≡ span_length start1 start2 length1 length2 }
{
    let end1 = start1 + (length1 as i32);
    let end2 = start2 + (length2 as i32);
    (end1.max(end2) - start1.min(start2)) as u32
}

fn combine_rectangles(r1: Rectangle, r2: Rectangle) -> Rectangle
    requires { RectangleInReach r1 × RectangleInReach r2 }
    ensures { result ≡ join_rectangles r1 r2 }
{
    let p1 = r1.top_left;
    let p2 = r2.top_left;
    let s1 = r1.size;
    let s2 = r2.size;
    Rectangle {
        top_left: Point {
            x: p1.x.min(p2.x),
            y: p1.y.min(p2.y),
        },
        size: Size {
            width: span_length(p1.x, p2.x, s1.width, s2.width),
            height: span_length(p1.y, p2.y, s1.height, s2.height),
        },
    }
}

// The smallest rectangle over both boxes; with none, the other.
pub fn combine_bounding_boxes(bb1: Option<Rectangle>, bb2: Option<Rectangle>) -> Option<Rectangle>
    requires { InReach bb1 × InReach bb2 }
    ensures { result ≡ join bb1 bb2 }
{
    let Some(r1) = bb1 else {
        return bb2;
    };
    let Some(r2) = bb2 else {
        return bb1;
    };
    Some(combine_rectangles(r1, r2))
}
