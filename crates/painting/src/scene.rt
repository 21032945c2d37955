use raster::font::Font;
use raster::ink::Ink;
use raster::shape::Shape;

pub mod inks;

/// A shape with its own ink.
#[derive(Clone, Copy)]
pub struct Placed {
    pub shape: Shape,
    pub ink: Ink,
}

/// From frame `from` to frame `to` the shape of that number has another ink.
#[derive(Clone, Copy)]
pub struct Span {
    pub shape: u16,
    pub from: u16,
    pub to: u16,
    pub ink: Ink,
}

/// What a painting shows: the shapes and the spans by their numbers, 0 to 255, at a frame.
#[derive(Clone, Copy)]
pub struct Scene<'a> {
    pub font: &'a Font,
    pub shapes: &'a [Option<Placed>],
    pub spans: &'a [Option<Span>],
    pub frame: u16,
}
