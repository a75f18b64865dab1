// Writing to the framebuffer. What its bytes hold is known to the writers of rows (row_writers) and to `Line::new`, and to nothing above.
#![tactic(auto)]

pub mod fill;
pub mod line;
pub mod row_writers;

ghost use Rattle.std.specs.Prelude.{◌≡◌};
ghost use Rattle.framebuffer.specs.Areas.{clamped};

// The nearest number from 0 to `limit`. `i64::clamp` would take the limit as an `i64`, and not each `usize` is one.
#[tactic(auto, using(crate::proofs::ClampLaws::clamped_max))]
pub fn clamp(z: i64, limit: usize) -> usize
    ensures { result ≡ clamped z limit }
{
    (z.max(0) as usize).min(limit)
}
