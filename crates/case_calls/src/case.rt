// A case's numbers, in the order of the file. `Case::read` and `Call::try_from` (checked.rt) refuse a code without a meaning;
// `Case::read_lossy` and `Call::from` read it as one that has. In Rust a `From` brings a `TryFrom`; in Rattle it brings none.
ghost use Rattle.std.specs.Prelude.{◌≡◌};
ghost use Rattle.cases.specs.Reading.{passed};
ghost use Rattle.case_calls.specs.Numbers.{behind_at, call_or_redraw, color_at, kind_without, place_of, IsCaseAt};

mod checked;

use crate::request::SIZE;
use c_codes::{known_alignment, known_anchor, known_flag, known_format};
use cases::reader::Reader;
use types::framebuffer::{Framebuffer, PixelFormat};
use types::geometry::Point;
use types::place::Place;
use types::style::{FontColor, FontStyle, HorizontalAlignment, Placement, VerticalPosition};

// What a case's kind has on top if the sums of the lookups' steps are printed too.
const SUMS: u32 = 16;

// .. and for each step of its framebuffer's format
const FORMAT: u32 = 32;

// Which call a case makes.
#[derive(Clone, Copy, Debug, PartialEq, Eq)]
pub enum Call {
    Open,
    FontBox,
    Measure,
    MeasureAligned,
    Draw(Drawing),
}

// .. on a framebuffer
#[derive(Clone, Copy, Debug, PartialEq, Eq)]
pub enum Drawing {
    Plain,
    Aligned,
    Redraw,
}

// A kind without its format.
fn kind_without(format: PixelFormat, kind: u32) -> u32
    ensures { result ≡ kind_without format kind }
{
    match format {
        PixelFormat::Bytes => kind,
        PixelFormat::Packed => kind % FORMAT,
    }
}

impl From<u32> for Call {
    ghost from_gives = { λ code call. call ≡ call_or_redraw code };

    #[tactic(auto, unfolding(crate::specs::Numbers::call_or_redraw))]
    fn from(code: u32) -> Call {
        match code {
            0 => Call::Open,
            1 => Call::FontBox,
            2 => Call::Measure,
            3 => Call::MeasureAligned,
            4 => Call::Draw(Drawing::Plain),
            6 => Call::Draw(Drawing::Aligned),
            // 5, and what is no call's number
            _ => Call::Draw(Drawing::Redraw),
        }
    }
}

fn read_color(cases: &mut Reader) -> FontColor
    ensures value { result ≡ color_at cases.old }
    ensures after { cases.new ≡ behind_at 3 cases.old }
{
    let has_background = known_flag(cases.number_or_zero()).unwrap_or(true);
    let fg = cases.low_byte();
    let bg = cases.low_byte();
    if has_background {
        FontColor::WithBackground { fg, bg }
    } else {
        FontColor::Transparent(fg)
    }
}

// A call, and what it is handed beside the font and the text.
#[derive(Clone, Copy, Debug, PartialEq, Eq)]
pub struct Case {
    pub call: Call,
    pub sums: bool,
    pub placement: Placement,
    pub style: FontStyle,
    pub horizontal_align: HorizontalAlignment,
    pub framebuffer: Framebuffer,
    // what the framebuffer holds before the call, and its length
    pub fill: u8,
    pub len: usize,
    // a redraw's two texts stand one behind the other: the first one's length, and what it is cleared with
    pub old_len: usize,
    pub background: u8,
}

impl Case {
    // No number is refused: a code without a meaning is read as one that has.
    pub fn read_lossy(cases: &mut Reader) -> Case
        ensures value { IsCaseAt cases.old result }
        ensures after { cases.new ≡ passed SIZE cases.old }
    {
        let kind = cases.number_or_zero();
        let format = known_format(kind / FORMAT).unwrap_or(PixelFormat::Bytes);
        let x = cases.signed_number_or_zero();
        let y = cases.signed_number_or_zero();
        let vertical_pos = known_anchor(cases.number_or_zero()).unwrap_or(VerticalPosition::Bottom);
        let align = known_alignment(cases.number_or_zero()).unwrap_or(HorizontalAlignment::Right);
        let line_height = cases.number_or_zero();
        let ignore_unknown_chars = known_flag(cases.number_or_zero()).unwrap_or(false);
        let color = read_color(cases);
        let width = cases.number_or_zero() as usize;
        let height = cases.number_or_zero() as usize;
        Case {
            call: Call::from(kind % SUMS),
            sums: SUMS <= kind_without(format, kind),
            placement: Placement {
                position: Point { x, y },
                line_height,
                ignore_unknown_chars,
            },
            style: FontStyle {
                color,
                vertical_pos,
            },
            horizontal_align: align,
            framebuffer: Framebuffer {
                format,
                width,
                height,
            },
            fill: cases.low_byte(),
            len: cases.number_or_zero() as usize,
            old_len: cases.number_or_zero() as usize,
            background: cases.low_byte(),
        }
    }

    // Where and how a redraw's readings are drawn.
    pub fn place(&self) -> Place
        ensures { result ≡ place_of self.now }
    {
        Place {
            position: self.placement.position,
            style: self.style,
            horizontal_align: self.horizontal_align,
            line_height: self.placement.line_height,
            background: self.background,
            framebuffer: self.framebuffer,
        }
    }
}
