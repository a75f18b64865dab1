// How a code point is written.
#![tactic(auto)]

ghost use Rattle.std.specs.Prelude.{Some};
ghost use Rattle.code_points.specs.CodePoints.{code_point_text};

use std::fmt::{self, Display, Formatter, Write};

// A code point, written as in U+00B0: at least four hexadecimal digits, in upper case.
#[derive(Clone, Copy, Debug, PartialEq, Eq)]
pub struct CodePoint(pub u32);

impl Display for CodePoint {
    ghost output = { λ c. Some (code_point_text c.0) };

    #[tactic(auto, using(crate::proofs::DigitLaws::written))]
    fn fmt<W: Write>(&self, f: &mut Formatter<W>) -> fmt::Result {
        let CodePoint(code) = *self;
        write!(f, "U+{code:04X}")
    }
}
