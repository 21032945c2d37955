pub use lines::line::Ends;

pub mod cover;

/// A box: the pixels from x to x + w - 1 and from y to y + h - 1.
#[derive(Clone, Copy, PartialEq, Eq)]
pub struct Rect {
    pub x: u16,
    pub y: u16,
    pub w: u16,
    pub h: u16,
}

/// A glyph in a cell of 8 by 16 pixels, whose top left pixel is (x, y).
#[derive(Clone, Copy, PartialEq, Eq)]
pub struct Cell {
    pub x: u16,
    pub y: u16,
    pub glyph: u16,
}

/// What a sheet is made of.
#[derive(Clone, Copy, PartialEq, Eq)]
pub enum Shape {
    Box(Rect),
    Line(Ends),
    Figure(Cell),
}

/// A box of pixels: those from left and top on that lie before right and bottom.
// Not the `PlaneBox` of extents, whose last edges count: this one may be empty, and may reach past any sheet.
#[derive(Clone, Copy, PartialEq, Eq)]
pub struct Bounds {
    pub left: u32,
    pub top: u32,
    pub right: u32,
    pub bottom: u32,
}
