// The values of an opened font, in the order of the struct's fields.
use std::fmt;
use types::font_reader::FontReader;

#[derive(Clone, Copy, Debug, PartialEq, Eq)]
pub struct Header(pub FontReader);

impl fmt::Display for Header {
    fn fmt<W: fmt::Write>(&self, f: &mut fmt::Formatter<W>) -> fmt::Result {
        let head = self.0;
        let background = u8::from(head.supports_background_color);
        write!(
            f,
            "{} {background} {} {}",
            head.glyph_count, head.m0, head.m1
        )?;
        write!(f, " {} {}", head.bitcnt_w, head.bitcnt_h)?;
        write!(f, " {} {} {}", head.bitcnt_x, head.bitcnt_y, head.bitcnt_d)?;
        write!(
            f,
            " {} {}",
            head.font_bounding_box_width, head.font_bounding_box_height
        )?;
        write!(
            f,
            " {} {}",
            head.font_bounding_box_x_offset, head.font_bounding_box_y_offset
        )?;
        write!(f, " {} {}", head.ascent, head.descent)?;
        write!(
            f,
            " {} {}",
            head.ascent_of_parentheses, head.descent_of_parentheses
        )?;
        write!(
            f,
            " {} {}",
            head.array_offset_upper_a, head.array_offset_lower_a
        )?;
        write!(f, " {} {}", head.array_offset_0x0100, head.line_height)
    }
}
