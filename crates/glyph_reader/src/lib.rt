// The fields of a glyph, read from the font's bits (SPECIFICATION, Bits and fields).
#![tactic(auto)]

ghost use Rattle.std.specs.Prelude.{◌≡◌, ◌*◌, ◌%◌, ◌^◌, ◌≤◌, length};
ghost use Rattle.definitions.specs.Refusals.{outcome};
ghost use Rattle.definitions.specs.Bits.{biased};
ghost use Rattle.definitions.specs.Glyph.{fields};

use font_reader::opened::OpenedFont;
use types::error::Error;
use types::glyph_reader::GlyphReader;
use window::long_at;

// The number of the lowest bits, `width` of them.
fn unsigned_field(bits: u64, width: u8) -> u8
    requires { width ≤ 8 }
    ensures { result ≡ bits % 2 ^ width }
{
    (bits % (1u64 << width)) as u8
}

// The same of 1 to 8 bits, less half of their range.
fn signed_field(bits: u64, width: u8) -> i8
    requires { (1 ≤ width) × (width ≤ 8) }
    ensures { result ≡ biased width (bits % 2 ^ width) }
{
    let value = unsigned_field(bits, width);
    let half = 1u8 << (width - 1);
    (i32::from(value) - i32::from(half)) as i8
}

// The glyph of ch, whose fields begin at the byte `start` of the font: GlyphReader::new of the Rust. They have 40 bits at most, so
// one fetch has them all. What is fetched past the font's end is zeros, and one test refuses it, as positions only grow.
pub fn new(font: &OpenedFont, ch: u32, start: usize) -> Result<GlyphReader, Error>
    requires { start ≤ length font.now.bytes.now }
    ensures { outcome result ≡ fields font.now.bytes.now font.now.head ch (start * 8) }
{
    let head = font.head;
    let h = head.bitcnt_w;
    let x = h + head.bitcnt_h;
    let y = x + head.bitcnt_x;
    let d = y + head.bitcnt_y;
    let end = start * 8 + usize::from(d + head.bitcnt_d);
    // the Rust fetches ahead, so one bit must be left
    if font.bytes.len() * 8 < end + 1 {
        return Err(Error::FontEnds(ch));
    }
    let bits = long_at(font.bytes, start);
    Ok(GlyphReader {
        glyph_width: unsigned_field(bits, head.bitcnt_w),
        glyph_height: unsigned_field(bits >> h, head.bitcnt_h),
        offset_x: signed_field(bits >> x, head.bitcnt_x),
        offset_y: signed_field(bits >> y, head.bitcnt_y),
        advance: signed_field(bits >> d, head.bitcnt_d),
        bit_pos: end,
    })
}
