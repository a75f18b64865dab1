// What the codes of a call mean: numbers from 0 in the order of an enum's variants, since C's calls take numbers.
#![tactic(auto)]

ghost use Rattle.std.specs.Prelude.{◌≡◌, ◌≤◌, OnSome};
ghost use Rattle.c_codes.specs.Codes.{anchor_of, alignment_of, flag_of, format_of, meaning_of, placed_by, style_of, framebuffer_of};

use types::framebuffer::{Framebuffer, PixelFormat};
use types::geometry::Point;
use types::style::{FontColor, FontStyle, HorizontalAlignment, Placement, VerticalPosition};

#[derive(Clone, Copy, Debug, PartialEq, Eq)]
pub struct Meaning {
    pub vertical_pos: VerticalPosition,
    pub horizontal_align: HorizontalAlignment,
    pub skip: bool,
    // whether the call's `bg` counts: a flag beside its colours, since the C interface has them so
    pub background: bool,
    pub format: PixelFormat,
}

impl Meaning {
    // Where the text of the call stands.
    pub fn placement(self, x: i32, y: i32, line_height: u32) -> Placement
        ensures { result ≡ placed_by self x y line_height }
    {
        Placement {
            position: Point { x, y },
            line_height,
            ignore_unknown_chars: self.skip,
        }
    }

    // The style of a drawing: with a background colour or transparent.
    pub fn style(self, fg: u8, bg: u8) -> FontStyle
        ensures { result ≡ style_of self fg bg }
    {
        let color = if self.background {
            FontColor::WithBackground { fg, bg }
        } else {
            FontColor::Transparent(fg)
        };
        FontStyle {
            color,
            vertical_pos: self.vertical_pos,
        }
    }

    // What is drawn on.
    pub fn framebuffer(self, width: usize, height: usize) -> Framebuffer
        ensures { result ≡ framebuffer_of self width height }
    {
        Framebuffer {
            format: self.format,
            width,
            height,
        }
    }
}

#[tactic(auto, unfolding(crate::specs::Codes::anchor_of))]
pub fn known_anchor(code: u32) -> Option<VerticalPosition>
    ensures { result ≡ anchor_of code }
{
    match code {
        0 => Some(VerticalPosition::Baseline),
        1 => Some(VerticalPosition::Top),
        2 => Some(VerticalPosition::Center),
        3 => Some(VerticalPosition::Bottom),
        _ => None,
    }
}

#[tactic(auto, unfolding(crate::specs::Codes::alignment_of))]
pub fn known_alignment(code: u32) -> Option<HorizontalAlignment>
    ensures { result ≡ alignment_of code }
{
    match code {
        0 => Some(HorizontalAlignment::Left),
        1 => Some(HorizontalAlignment::Center),
        2 => Some(HorizontalAlignment::Right),
        _ => None,
    }
}

#[tactic(auto, unfolding(crate::specs::Codes::flag_of))]
pub fn known_flag(code: u32) -> Option<bool>
    ensures { result ≡ flag_of code }
{
    match code {
        0 => Some(false),
        1 => Some(true),
        _ => None,
    }
}

#[tactic(auto, unfolding(crate::specs::Codes::format_of))]
pub fn known_format(code: u32) -> Option<PixelFormat>
    ensures { result ≡ format_of code }
{
    match code {
        0 => Some(PixelFormat::Bytes),
        1 => Some(PixelFormat::Packed),
        _ => None,
    }
}

// A call hands 0 for a code that it does not have, and the length of what it stores its answer in. The kinds are numbers here
// because the C interface needs it: a call has its codes one by one.
#[tactic(auto, unfolding(crate::specs::Codes::meaning_of))]
pub fn known_codes(
    anchor: u32,
    align: u32,
    skip: u32,
    background: u32,
    format: u32,
    room: usize,
) -> Option<Meaning>
    ensures means { result ≡ meaning_of anchor align skip background format room }
    ensures has_room { OnSome result (10 ≤ room) }
{
    let vertical_pos = known_anchor(anchor)?;
    let horizontal_align = known_alignment(align)?;
    let skip = known_flag(skip)?;
    let background = known_flag(background)?;
    let format = known_format(format)?;
    if room < 10 {
        return None;
    }
    Some(Meaning {
        vertical_pos,
        horizontal_align,
        skip,
        background,
        format,
    })
}
