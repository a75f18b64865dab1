// The values of a font's header, under the Rust's names. It is an answer only: every call takes the
// font's bytes and reads them itself.
#[derive(Clone, Copy, Debug, PartialEq, Eq)]
pub struct FontReader {
    pub glyph_count: u8,
    pub supports_background_color: bool,
    // widths in bits: of zero runs, of one runs, and of a glyph's five fields
    pub m0: u8,
    pub m1: u8,
    pub bitcnt_w: u8,
    pub bitcnt_h: u8,
    pub bitcnt_x: u8,
    pub bitcnt_y: u8,
    pub bitcnt_d: u8,
    pub font_bounding_box_width: i8,
    pub font_bounding_box_height: i8,
    pub font_bounding_box_x_offset: i8,
    pub font_bounding_box_y_offset: i8,
    pub ascent: i8,
    pub descent: i8,
    pub ascent_of_parentheses: i8,
    pub descent_of_parentheses: i8,
    // offsets of glyph records, counted from the end of the header
    pub array_offset_upper_a: u16,
    pub array_offset_lower_a: u16,
    pub array_offset_0x0100: u16,
    // the default line height
    pub line_height: u32,
}
