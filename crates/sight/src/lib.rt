// How much of a text that was drawn is seen on a framebuffer.
#![tactic(auto)]

ghost use Rattle.std.specs.Prelude.{◌≡◌, ◌≤◌};
ghost use Rattle.definitions.specs.Refusals.{outcome};
ghost use Rattle.sight.specs.Sights.{side_seen, box_seen, sight_of};

use types::error::Error;
use types::framebuffer::Framebuffer;
use types::geometry::{Rectangle, RenderedDimensions};

// From the least to the most. A text without a pixel is not seen.
#[derive(Clone, Copy, Debug, PartialEq, Eq, PartialOrd, Ord)]
pub enum Sight {
    Unseen,
    Part,
    Whole,
}

// The pixels from `start` on, beside a side of the framebuffer.
fn side_seen(start: i32, len: u32, side: usize) -> Sight
    requires { side ≤ 256 }
    ensures { result ≡ side_seen start len side }
{
    let start = i64::from(start);
    let end = start + i64::from(len);
    let side = side as i64;
    if end <= 0 || side <= start {
        Sight::Unseen
    } else if start < 0 || side < end {
        Sight::Part
    } else {
        Sight::Whole
    }
}

fn box_seen(bounding_box: Option<Rectangle>, framebuffer: Framebuffer) -> Sight
    requires { (framebuffer.width ≤ 256) × (framebuffer.height ≤ 256) }
    ensures { result ≡ box_seen framebuffer bounding_box }
{
    let Some(r) = bounding_box else {
        return Sight::Unseen;
    };
    let columns = side_seen(r.top_left.x, r.size.width, framebuffer.width);
    let rows = side_seen(r.top_left.y, r.size.height, framebuffer.height);
    columns.min(rows)
}

// How much is seen of what a drawing answered; none where it was refused.
pub fn sight_of(
    answer: Result<RenderedDimensions, Error>,
    framebuffer: Framebuffer,
) -> Option<Sight>
    requires { (framebuffer.width ≤ 256) × (framebuffer.height ≤ 256) }
    ensures { result ≡ sight_of framebuffer (outcome answer) }
{
    let dimensions = answer.ok()?;
    Some(box_seen(dimensions.bounding_box, framebuffer))
}
