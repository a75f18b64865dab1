// Reading a font's header, and opening a font.
#![tactic(auto)]

pub mod opened;

ghost use Rattle.std.specs.Prelude.{◌≡◌, ◌≤◌, ◌<◌, length, pos, ◌≤ℤ◌};
ghost use Rattle.definitions.specs.Refusals.{outcome};
ghost use Rattle.definitions.specs.Header.{header, header_off, default_line_height, signed_byte};
ghost use Rattle.definitions.specs.Calls.{open_font};

use types::error::Error;
use types::font_reader::FontReader;
use utils::big_endian::u16_at;

const HEADER_SIZE: usize = 23;

const MAX_FONT_SIZE: usize = 1_048_576;

// A byte of the header that is signed.
#[tactic(auto, unfolding(integers::specs::Integers::signed8))]
fn i8_at(font: &[u8], i: usize) -> i8
    requires { i < length font.now }
    ensures { result ≡ signed_byte font.now i }
{
    font[i].cast_signed()
}

// Whether a width is off its limits, or the font's bounding box negative (cause 2 of SPECIFICATION, Refusals).
// This function and the next two ask for 23 bytes. A `&[u8; 23]` would say so once, but the definitions take the whole font: it would
// need laws that `header_off` and `default_line_height` read no byte behind it.
#[tactic(auto, unfolding(definitions::specs::Header::header_off))]
fn has_bad_header(font: &[u8]) -> bool
    requires { 23 ≤ length font.now }
    ensures { result ≡ header_off font.now }
{
    (8 < font[2])
        | (8 < font[3])
        | (8 < font[4])
        | (8 < font[5])
        | ((font[6] == 0) | (8 < font[6]))
        | ((font[7] == 0) | (8 < font[7]))
        | ((font[8] == 0) | (8 < font[8]))
        | (i8_at(font, 9) < 0)
        | (i8_at(font, 10) < 0)
}

// The font's bounding box height plus 1.
#[tactic(auto, using(integers::proofs::Laws::signed8_whole))]
fn get_default_line_height(font: &[u8]) -> u32
    requires { (23 ≤ length font.now) × (pos 0 ≤ℤ signed_byte font.now 10) }
    ensures { result ≡ default_line_height font.now }
{
    u32::from(font[10]) + 1
}

#[tactic(auto, unfolding(definitions::specs::Header::header))]
fn read_header(font: &[u8]) -> FontReader
    requires { (23 ≤ length font.now) × (pos 0 ≤ℤ signed_byte font.now 10) }
    ensures { result ≡ header font.now }
{
    FontReader {
        glyph_count: font[0],
        supports_background_color: font[1] != 0,
        m0: font[2],
        m1: font[3],
        bitcnt_w: font[4],
        bitcnt_h: font[5],
        bitcnt_x: font[6],
        bitcnt_y: font[7],
        bitcnt_d: font[8],
        font_bounding_box_width: i8_at(font, 9),
        font_bounding_box_height: i8_at(font, 10),
        font_bounding_box_x_offset: i8_at(font, 11),
        font_bounding_box_y_offset: i8_at(font, 12),
        ascent: i8_at(font, 13),
        descent: i8_at(font, 14),
        ascent_of_parentheses: i8_at(font, 15),
        descent_of_parentheses: i8_at(font, 16),
        array_offset_upper_a: u16_at(font, 17),
        array_offset_lower_a: u16_at(font, 19),
        array_offset_0x0100: u16_at(font, 21),
        line_height: get_default_line_height(font),
    }
}

// Opens a font: its header's values and the default line height, or cause 1 or 2.
#[tactic(auto, using(definitions::proofs::OpenedLaws::opened_limits), unfolding(definitions::specs::Calls::open_font))]
pub fn new_from_raw_data(font: &[u8]) -> Result<FontReader, Error>
    ensures { outcome result ≡ open_font font.now }
{
    if font.len() < HEADER_SIZE || MAX_FONT_SIZE < font.len() {
        return Err(Error::FontLength);
    }
    if has_bad_header(font) {
        return Err(Error::FontHeader);
    }
    Ok(read_header(font))
}
