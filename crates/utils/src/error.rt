// What is answered with a refusal: a number and a code point (SPECIFICATION, Refusals). Functions, and no `From` or method of Error:
// those stand in the crate of the type, below the definitions that these contracts name.
ghost use Rattle.std.specs.Prelude.{◌≡◌};
ghost use Rattle.definitions.specs.Refusals.{error_number, code_point};

use types::error::Error;

// The number of a refusal.
pub fn error_number(e: Error) -> u32
    ensures { result ≡ error_number e }
{
    match e {
        Error::FontLength => 1,
        Error::FontHeader => 2,
        Error::FramebufferSize => 3,
        Error::TextEncoding => 4,
        Error::PositionOrLineHeight => 5,
        Error::BackgroundColorNotSupported => 6,
        Error::GlyphNotFound(_) => 7,
        Error::FontEnds(_) => 8,
        Error::ColorNotSupported => 9,
    }
}

// The code point that is returned with it.
pub fn error_code_point(e: Error) -> u32
    ensures { result ≡ code_point e }
{
    match e {
        Error::GlyphNotFound(c) | Error::FontEnds(c) => c,
        _ => 0,
    }
}
