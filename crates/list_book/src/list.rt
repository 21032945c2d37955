use painting::scene::{Placed, Span};
use raster::size::Size;

pub mod calls;

/// The shapes and the spans of a sheet, by their numbers, and its frame.
#[derive(Clone, Copy)]
pub struct ShapeList {
    size: Size,
    // A table for each kind, with 256 numbers, and no map: a map takes heap, and this is fixed memory.
    shapes: [Option<Placed>; 256],
    spans: [Option<Span>; 256],
    frame: u16,
}
