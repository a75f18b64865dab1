// The edges of all readings, and a place and a framebuffer that follow from them.
ghost use Rattle.std.specs.Prelude.{◌≡◌, pos, ◌+ℤ◌};
ghost use Rattle.sheet_extent.specs.Extent.{at_origin, widened, with_reading, NearEdge, NearExtent, AllMeasured};
ghost use Rattle.sheet_extent.specs.Extent.{before_zero, inside, side};

use crate::values::Extent;
use sheet_ground::texts::{COUNT, measure_reading};
use types::geometry::{Point, Rectangle, RenderedDimensions};
use types::style::{HorizontalAlignment, Placement, VerticalPosition};

const MARGIN: usize = 3;

fn end_edge(start: i32, len: u32) -> i64
    ensures { result ≡ start +ℤ pos len }
{
    i64::from(start) + i64::from(len)
}

fn widened(extent: Extent, r: Rectangle) -> Extent
    requires { NearExtent extent }
    ensures { (result ≡ widened extent r) × NearExtent result }
{
    Extent {
        left: extent.left.min(i64::from(r.top_left.x)),
        top: extent.top.min(i64::from(r.top_left.y)),
        right: extent.right.max(end_edge(r.top_left.x, r.size.width)),
        bottom: extent.bottom.max(end_edge(r.top_left.y, r.size.height)),
    }
}

fn with_reading(
    extent: Extent,
    font: &[u8],
    k: usize,
    vertical_pos: VerticalPosition,
    horizontal_align: HorizontalAlignment,
) -> Extent
    requires { NearExtent extent }
    ensures { (result ≡ with_reading extent (at_origin font.now vertical_pos horizontal_align k))
        × NearExtent result }
{
    let placement = Placement {
        position: Point { x: 0, y: 0 },
        line_height: 0,
        ignore_unknown_chars: false,
    };
    match measure_reading(font, k, placement, vertical_pos, horizontal_align) {
        Ok(
            RenderedDimensions {
                bounding_box: Some(r),
                ..
            },
        ) => widened(extent, r),
        _ => extent,
    }
}

pub fn measure_all(
    font: &[u8],
    vertical_pos: VerticalPosition,
    horizontal_align: HorizontalAlignment,
) -> Extent
    ensures { AllMeasured font.now vertical_pos horizontal_align result }
{
    let mut extent = Extent::default();
    for k in 0..COUNT {
        extent = with_reading(extent, font, k, vertical_pos, horizontal_align);
    }
    extent
}

// How far an edge lies before 0, at most 1000.
fn before_zero(edge: i64) -> usize
    ensures { result ≡ before_zero edge }
{
    edge.clamp(-1000, 0).unsigned_abs() as usize
}

// Where the readings stand so that their first edge lies past the margin.
pub fn inside(edge: i64) -> i32
    ensures { result ≡ inside edge }
{
    (MARGIN + before_zero(edge)) as i32
}

// How many pixels there are from the framebuffer's first to the margin past the last edge: 1 to 256.
pub fn side(start: i32, end: i64) -> usize
    requires { NearEdge end }
    ensures { result ≡ side start end }
{
    let n = i64::from(start) + end + MARGIN as i64;
    n.clamp(1, 256) as usize
}
