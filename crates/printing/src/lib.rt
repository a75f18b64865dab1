// What the programs print: answers in the measuring program's words (`ok` or `no`, then numbers), and why a call is refused.
#![tactic(auto)]

ghost use Rattle.std.specs.Prelude.{Some};
ghost use Rattle.printing.specs.Printed.{refusal_text, answer_text, area_text, box_text, dimensions_text};

use code_points::CodePoint;
use std::fmt;
use types::error::Error;
use types::geometry::{Rectangle, RenderedDimensions};
use utils::error::{error_code_point, error_number};

// Bytes that need not be text.
pub fn text<R: Print>(rt: &R, s: &[u8]) {
    let _ = rt.write_all(s);
}

// A refusal: `no`, its number and its code point.
#[derive(Clone, Copy, Debug, PartialEq, Eq)]
pub struct Refusal(pub Error);

impl fmt::Display for Refusal {
    ghost output = { λ r. Some (refusal_text r.0) };

    fn fmt<W: fmt::Write>(&self, f: &mut fmt::Formatter<W>) -> fmt::Result {
        write!(
            f,
            "no {} {}",
            error_number(self.0),
            error_code_point(self.0)
        )
    }
}

// What a call answers: `ok` and the value, or the refusal.
#[derive(Clone, Copy, Debug, PartialEq, Eq)]
pub struct Answer<T>(pub Result<T, Error>);

impl<T: fmt::Display> fmt::Display for Answer<T> {
    ghost output = { λ a. answer_text T.output a.0 };

    fn fmt<W: fmt::Write>(&self, f: &mut fmt::Formatter<W>) -> fmt::Result {
        match &self.0 {
            Ok(value) => write!(f, "ok {value}"),
            Err(error) => write!(f, "{}", Refusal(*error)),
        }
    }
}

// A rectangle's place and size.
#[derive(Clone, Copy, Debug, PartialEq, Eq)]
pub struct Area(pub Rectangle);

impl fmt::Display for Area {
    ghost output = { λ a. Some (area_text a.0) };

    fn fmt<W: fmt::Write>(&self, f: &mut fmt::Formatter<W>) -> fmt::Result {
        let Rectangle { top_left, size } = self.0;
        write!(
            f,
            "{} {} {} {}",
            top_left.x, top_left.y, size.width, size.height
        )
    }
}

// A bounding box, or `none`.
#[derive(Clone, Copy, Debug, PartialEq, Eq)]
pub struct BoxOrNone(pub Option<Rectangle>);

impl fmt::Display for BoxOrNone {
    ghost output = { λ b. Some (box_text b.0) };

    fn fmt<W: fmt::Write>(&self, f: &mut fmt::Formatter<W>) -> fmt::Result {
        match self.0 {
            Some(area) => write!(f, "{}", Area(area)),
            None => f.write_str("none"),
        }
    }
}

// The advance, and the bounding box.
#[derive(Clone, Copy, Debug, PartialEq, Eq)]
pub struct Dimensions(pub RenderedDimensions);

impl fmt::Display for Dimensions {
    ghost output = { λ d. Some (dimensions_text d.0) };

    fn fmt<W: fmt::Write>(&self, f: &mut fmt::Formatter<W>) -> fmt::Result {
        let RenderedDimensions {
            advance,
            bounding_box,
        } = self.0;
        write!(f, "{} {} {}", advance.x, advance.y, BoxOrNone(bounding_box))
    }
}

// A character: by itself, where a terminal shows it in one column, and by its code point: '5' (U+0035).
#[derive(Clone, Copy, Debug, PartialEq, Eq)]
struct Character(u32);

impl fmt::Display for Character {
    fn fmt<W: fmt::Write>(&self, f: &mut fmt::Formatter<W>) -> fmt::Result {
        let code_point = CodePoint(self.0);
        match char::from_u32(self.0) {
            Some(shown @ '!'..='~') => write!(f, "'{shown}' ({code_point})"),
            _ => write!(f, "{code_point}"),
        }
    }
}

// Why a call is refused, in words.
#[derive(Clone, Copy, Debug, PartialEq, Eq)]
pub struct Cause(pub Error);

impl fmt::Display for Cause {
    fn fmt<W: fmt::Write>(&self, f: &mut fmt::Formatter<W>) -> fmt::Result {
        let words = match self.0 {
            Error::FontLength => "the font has fewer than 23 or more than 1,048,576 bytes",
            Error::FontHeader => "the font's header is damaged",
            Error::FramebufferSize => "the framebuffer is not 1 to 256 pixels wide and high",
            Error::TextEncoding => "the text has more than 4,096 bytes or is not UTF-8",
            Error::PositionOrLineHeight => "the place or the line height is off limits",
            Error::BackgroundColorNotSupported => "the font allows no background colour",
            Error::GlyphNotFound(c) => {
                return write!(f, "the font has no glyph for {}", Character(c));
            }
            Error::FontEnds(c) => {
                return write!(
                    f,
                    "the font ends before the glyph for {} does",
                    Character(c)
                );
            }
            Error::ColorNotSupported =>
                "the framebuffer is packed, and a colour is neither 0 nor 1",
        };
        f.write_str(words)
    }
}

// A refusal's line: the number, the code point, and the cause in words.
#[derive(Clone, Copy, Debug, PartialEq, Eq)]
pub struct RefusalLine(pub Error);

impl fmt::Display for RefusalLine {
    fn fmt<W: fmt::Write>(&self, f: &mut fmt::Formatter<W>) -> fmt::Result {
        write!(f, "{}: {}", Refusal(self.0), Cause(self.0))
    }
}
