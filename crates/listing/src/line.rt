use raster::shape::Shape;

/// One line of a listing.
#[derive(Clone, Copy, PartialEq, Eq)]
pub enum Line {
    /// The sides of the sheet.
    Sheet {
        width: u16,
        height: u16,
    },
    /// A shape, by its number, and its ink.
    Shape {
        number: u16,
        shape: Shape,
        ink: u16,
    },
    /// A span of frames in which a shape has another ink.
    Span {
        number: u16,
        shape: u16,
        from: u16,
        to: u16,
        ink: u16,
    },
    /// The frame to show.
    Frame {
        frame: u16,
    },
}
