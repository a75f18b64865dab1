// Places and areas on the display, in pixels. x grows to the right and y downwards.

#[derive(Clone, Copy, Debug, Default, PartialEq, Eq)]
pub struct Point {
    pub x: i32,
    pub y: i32,
}

#[derive(Clone, Copy, Debug, Default, PartialEq, Eq)]
pub struct Size {
    pub width: u32,
    pub height: u32,
}

#[derive(Clone, Copy, Debug, Default, PartialEq, Eq)]
pub struct Rectangle {
    pub top_left: Point,
    pub size: Size,
}

// The dimensions of a rendered text: where the next glyph would stand, relative to the first, and
// the bounding box of what is drawn, none where nothing is.
#[derive(Clone, Copy, Debug, Default, PartialEq, Eq)]
pub struct RenderedDimensions {
    pub advance: Point,
    pub bounding_box: Option<Rectangle>,
}
