// What the program is asked for: the words `pgm`, `background` and `packed`, and an alignment, `left`, `center` or `right`, in any
// order. A later alignment replaces an earlier one.
#![tactic(auto)]

ghost use Rattle.std.specs.Prelude.{◌≡◌, List, ℕ};
ghost use Rattle.draw_options.specs.Words.{named_alignment, with_word, with_words, no_words};

use std::env::Env;
use std::error::Error;
use std::fmt;
use std::fmt::{Display, Formatter};
use system::arguments;
use types::framebuffer::PixelFormat;
use types::style::HorizontalAlignment;

#[derive(Clone, Copy, Debug, PartialEq, Eq, Default)]
pub struct Options {
    pub pgm: bool,
    pub background: bool,
    pub format: PixelFormat,
    // without one the lines stand left; with one the answer has no advance
    pub align: Option<HorizontalAlignment>,
}

// A word is none of the six.
#[derive(Clone, Copy, Debug, PartialEq, Eq)]
pub struct UnknownWord;

impl Display for UnknownWord {
    fn fmt<W: fmt::Write>(&self, f: &mut Formatter<W>) -> fmt::Result {
        f.write_str(
            "draw: the arguments are pgm (the image goes into draw.pgm), background (behind the glyphs), ",
        )?;
        f.write_str("packed (eight pixels in a byte), and left, center or right")
    }
}

impl Error for UnknownWord {}

// The alignment of that name.
pub fn named_alignment(word: &str) -> Option<HorizontalAlignment>
    ensures { result ≡ named_alignment word.now }
{
    match word {
        "left" => Some(HorizontalAlignment::Left),
        "center" => Some(HorizontalAlignment::Center),
        "right" => Some(HorizontalAlignment::Right),
        _ => None,
    }
}

fn with_word(options: Options, word: &str) -> Result<Options, UnknownWord>
    ensures { result ≡ with_word options word.now }
{
    match word {
        "pgm" => Ok(Options {
            pgm: true,
            ..options
        }),
        "background" => Ok(Options {
            background: true,
            ..options
        }),
        "packed" => Ok(Options {
            format: PixelFormat::Packed,
            ..options
        }),
        _ => {
            let align = named_alignment(word).ok_or(UnknownWord)?;
            Ok(Options {
                align: Some(align),
                ..options
            })
        }
    }
}

// No contract can say what an argument is: it is some word.
pub fn read<R: Env>(rt: &R) -> Result<Options, UnknownWord>
    ensures { (words : List (List ℕ)) × (result ≡ with_words no_words words) }
{
    let mut options = Options::default();
    for word in arguments(rt) {
        options = with_word(options, word.as_str())?;
    }
    Ok(options)
}
