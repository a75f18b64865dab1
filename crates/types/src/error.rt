// Why a call is refused (SPECIFICATION, Refusals): specs/Refusals.antt of the crate definitions gives
// each case its number and code point.
#[derive(Clone, Copy, Debug, PartialEq, Eq)]
pub enum Error {
    // the font has fewer than 23 or more than 1,048,576 bytes
    FontLength,
    // a width in the header is off limits, or the font's bounding box is negative
    FontHeader,
    // the framebuffer's size is off limits, or its buffer has another length
    FramebufferSize,
    // the text has more than 4,096 bytes or is not UTF-8
    TextEncoding,
    // the position or the line height is off limits
    PositionOrLineHeight,
    // a background colour is wanted and the font has none
    BackgroundColorNotSupported,
    // the font has no glyph for this code point
    GlyphNotFound(u32),
    // the font ends before the glyph for this code point does
    FontEnds(u32),
    // the framebuffer holds pixels of 0 and 1, and a colour is neither
    ColorNotSupported,
}
