// What is drawn on.

// How the bytes of a framebuffer hold its pixels (SPECIFICATION, Drawing and measuring).
#[derive(Clone, Copy, Debug, Default, PartialEq, Eq)]
pub enum PixelFormat {
    // one pixel a byte, rows from the top
    #[default]
    Bytes,
    // eight pixels of a column a byte, the top one in bit 0
    Packed,
}

// A framebuffer. Its buffer is lent beside it.
#[derive(Clone, Copy, Debug, PartialEq, Eq)]
pub struct Framebuffer {
    pub format: PixelFormat,
    pub width: usize,
    pub height: usize,
}
