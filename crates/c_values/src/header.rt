// The header's values, stored for the caller in the order of the struct's fields.
ghost use Rattle.std.specs.Prelude.{◌≡◌, ◌≤◌, length};
ghost use lib.Seq.{sets};
ghost use Rattle.c_values.specs.Headers.{header_values};

use types::font_reader::FontReader;

pub fn store_header(out: &mut [i64], head: FontReader)
    requires { 21 ≤ length out.old }
    ensures { out.new ≡ sets out.old 0 (header_values head) }
{
    out[..21].copy_from_slice(&[
        i64::from(head.glyph_count),
        i64::from(head.supports_background_color),
        i64::from(head.m0),
        i64::from(head.m1),
        i64::from(head.bitcnt_w),
        i64::from(head.bitcnt_h),
        i64::from(head.bitcnt_x),
        i64::from(head.bitcnt_y),
        i64::from(head.bitcnt_d),
        i64::from(head.font_bounding_box_width),
        i64::from(head.font_bounding_box_height),
        i64::from(head.font_bounding_box_x_offset),
        i64::from(head.font_bounding_box_y_offset),
        i64::from(head.ascent),
        i64::from(head.descent),
        i64::from(head.ascent_of_parentheses),
        i64::from(head.descent_of_parentheses),
        i64::from(head.array_offset_upper_a),
        i64::from(head.array_offset_lower_a),
        i64::from(head.array_offset_0x0100),
        i64::from(head.line_height),
    ]);
}
