// What the words of a command line ask the sheet for: an anchor, an alignment after `align`, since `center` is an anchor too,
// `narrow`, `packed`, and `at X Y`, in any order. A later word of a kind replaces an earlier one.
#![tactic(auto)]

ghost use Rattle.std.specs.Prelude.{IfOk};
ghost use Rattle.sheet_options.specs.Limits.{Limited, WithinLimits};

use draw_options::named_alignment;
use sheet_extent::values::Options;
use std::env::Env;
use std::error::Error;
use std::fmt;
use std::fmt::{Display, Formatter};
use system::{Word, arguments};
use types::framebuffer::PixelFormat;
use types::geometry::Point;
use types::style::{HorizontalAlignment, VerticalPosition};

// A word is not known where it stands, or one is missing behind it.
#[derive(Clone, Copy, Debug, PartialEq, Eq)]
pub struct WrongWord;

impl Display for WrongWord {
    fn fmt<W: fmt::Write>(&self, f: &mut Formatter<W>) -> fmt::Result {
        f.write_str(
            "sheet: the arguments are an anchor (baseline, top, center, bottom), align (left, center, right), ",
        )?;
        f.write_str("at X Y (from -1048576 to 1048576), narrow and packed")
    }
}

impl Error for WrongWord {}

// The largest coordinate of a place.
const MOST: u32 = 1_048_576;

// A coordinate within the calls' limits: digits, or a minus sign and digits.
fn coordinate(word: Option<Word>) -> Result<i32, WrongWord>
    ensures { IfOk result Limited }
{
    let word = word.ok_or(WrongWord)?;
    let text = word.as_str();
    match text.parse::<i32>() {
        Ok(n) if n.unsigned_abs() <= MOST && !text.starts_with('+') => Ok(n),
        _ => Err(WrongWord),
    }
}

fn alignment(word: Option<Word>) -> Result<HorizontalAlignment, WrongWord> {
    let word = word.ok_or(WrongWord)?;
    named_alignment(word.as_str()).ok_or(WrongWord)
}

// The program's arguments.
pub fn read<R: Env>(rt: &R) -> Result<Options, WrongWord>
    ensures { IfOk result WithinLimits }
{
    let mut options = Options::default();
    let mut words = arguments(rt);
    // `align` and `at` take the words behind them
    while let Some(word) = words.next() {
        match word.as_str() {
            "baseline" => options.vertical_pos = VerticalPosition::Baseline,
            "top" => options.vertical_pos = VerticalPosition::Top,
            "center" => options.vertical_pos = VerticalPosition::Center,
            "bottom" => options.vertical_pos = VerticalPosition::Bottom,
            "align" => options.horizontal_align = alignment(words.next())?,
            "at" => {
                let x = coordinate(words.next())?;
                let y = coordinate(words.next())?;
                options.at = Some(Point { x, y });
            }
            "narrow" => options.narrow = true,
            "packed" => options.format = PixelFormat::Packed,
            _ => return Err(WrongWord),
        }
    }
    Ok(options)
}
