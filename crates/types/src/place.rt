// Where and how readings are drawn, and on what. There is no code here.
use crate::framebuffer::Framebuffer;
use crate::geometry::Point;
use crate::style::{FontStyle, HorizontalAlignment};

#[derive(Clone, Copy, Debug, PartialEq, Eq)]
pub struct Place {
    pub position: Point,
    pub style: FontStyle,
    pub horizontal_align: HorizontalAlignment,
    pub line_height: u32,
    // what a reading is cleared with
    pub background: u8,
    pub framebuffer: Framebuffer,
}
