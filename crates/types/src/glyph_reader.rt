// What is read of a glyph: its metrics, under the Rust's names, and where its runs begin.
#[derive(Clone, Copy, Debug, PartialEq, Eq)]
pub struct GlyphReader {
    pub glyph_width: u8,
    pub glyph_height: u8,
    pub offset_x: i8,
    pub offset_y: i8,
    pub advance: i8,
    // the bit of the font, counted from its first byte's lowest, at which the runs begin
    pub bit_pos: usize,
}
