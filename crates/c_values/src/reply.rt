// What a call answers, and how it is stored for the caller.
ghost use Rattle.std.specs.Prelude.{◌≡◌, ◌≤◌, length, MatchResult};
ghost use Rattle.c_values.specs.Replies.{error_reply, rectangle_reply, dimensions_reply, bounding_box_reply, counted, stored};

use types::error::Error;
use types::geometry::{Rectangle, RenderedDimensions};
use types::steps::LookupSteps;
use utils::error::{error_code_point, error_number};

// The numbers are as wide as every value that goes into them.
#[derive(Clone, Copy, Debug, Default, PartialEq, Eq)]
pub struct Reply {
    pub status: u32,
    pub code_point: i64,
    // the advance
    pub x: i64,
    pub y: i64,
    // 1 where there is a box: a flag beside its numbers, since the C interface has no Option
    pub boxed: i64,
    pub left: i64,
    pub top: i64,
    pub width: i64,
    pub height: i64,
}

impl From<Error> for Reply {
    ghost from_gives = { λ e r. r ≡ error_reply e };

    fn from(error: Error) -> Reply {
        Reply {
            status: error_number(error),
            code_point: i64::from(error_code_point(error)),
            ..Reply::default()
        }
    }
}

impl From<RenderedDimensions> for Reply {
    ghost from_gives = { λ d r. r ≡ dimensions_reply d };

    fn from(dimensions: RenderedDimensions) -> Reply {
        let RenderedDimensions {
            advance,
            bounding_box,
        } = dimensions;
        // C has no Option: zeros stand where there is no box
        let area = bounding_box.unwrap_or_default();
        Reply {
            status: 0,
            code_point: 0,
            x: i64::from(advance.x),
            y: i64::from(advance.y),
            boxed: i64::from(bounding_box.is_some()),
            left: i64::from(area.top_left.x),
            top: i64::from(area.top_left.y),
            width: i64::from(area.size.width),
            height: i64::from(area.size.height),
        }
    }
}

// A call without an advance stores zeros for it.
impl From<Option<Rectangle>> for Reply {
    ghost from_gives = { λ b r. r ≡ bounding_box_reply b };

    fn from(bounding_box: Option<Rectangle>) -> Reply {
        Reply::from(RenderedDimensions {
            bounding_box,
            ..RenderedDimensions::default()
        })
    }
}

impl From<Rectangle> for Reply {
    ghost from_gives = { λ a r. r ≡ rectangle_reply a };

    fn from(area: Rectangle) -> Reply {
        Reply::from(Some(area))
    }
}

impl Reply {
    // What a call answers, or why it is refused.
    pub fn of<T: Into<Reply>>(answer: Result<T, Error>) -> Reply
        ensures { MatchResult answer (λ a. T.converts a result) (λ e. result ≡ error_reply e) }
    {
        match answer {
            Ok(value) => value.into(),
            Err(error) => Reply::from(error),
        }
    }
}

// Stores the ten numbers and answers with the reply's status.
pub fn store(out: &mut [i64], reply: Reply, steps: LookupSteps) -> u32
    requires { 10 ≤ length out.old }
    ensures { (result ≡ reply.status) × (out.new ≡ stored (counted reply steps) out.old) }
{
    out[..10].copy_from_slice(&[
        reply.code_point,
        reply.x,
        reply.y,
        reply.boxed,
        reply.left,
        reply.top,
        reply.width,
        reply.height,
        i64::from(steps.records),
        i64::from(steps.entries),
    ]);
    reply.status
}
