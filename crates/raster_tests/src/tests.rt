ghost use Rattle.std.specs.Prelude.{◌≡◌, Some, None, MatchResult};
ghost use Rattle.raster.specs.Refusals.{number};
ghost use Rattle.raster.specs.declared.shape.Shape.TheVariants.{Box, Figure};

use raster::refusal::Refusal;
use raster::shape::{Cell, Ends, Rect, Shape};

mod bounds;
mod colours;
mod covers;
mod glyphs;
mod line_pixels;

/// The number of a refusal; none for an answer.
fn refused<T: Drop>(answer: Result<T, Refusal>) -> Option<u8>
    ensures { MatchResult answer (λ _. result ≡ None) (λ e. result ≡ Some (number e)) }
{
    answer.err().map(u8::from)
}

/// The box of w by h pixels whose first is (x, y).
// One function for each struct of figures: a shape written out takes up to six lines, and the tests have about thirty.
fn area(x: u16, y: u16, w: u16, h: u16) -> Shape
    ensures { result ≡ Box (record { x = x; y = y; w = w; h = h }) }
{
    Shape::Box(Rect { x, y, w, h })
}

/// A glyph whose cell begins at (x, y).
fn figure(x: u16, y: u16, glyph: u16) -> Shape
    ensures { result ≡ Figure (record { x = x; y = y; glyph = glyph }) }
{
    Shape::Figure(Cell { x, y, glyph })
}

/// The line from (x0, y0) to (x1, y1).
fn line(x0: u16, y0: u16, x1: u16, y1: u16) -> Ends
    ensures { (result.x0 ≡ x0) × (result.y0 ≡ y0) × (result.x1 ≡ x1) × (result.y1 ≡ y1) }
{
    Ends { x0, y0, x1, y1 }
}
