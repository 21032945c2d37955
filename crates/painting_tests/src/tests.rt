ghost use Rattle.std.specs.Prelude.{◌≡◌, ◌≤◌, Some, []};
ghost use Rattle.std.specs.Option.{option_map};
ghost use Rattle.raster.specs.declared.shape.Shape.TheVariants.{Box, Line, Figure};
ghost use Rattle.painting.specs.Scenes.{item, turn};

use painting::scene::{Placed, Scene, Span};
use raster::font::Font;
use raster::ink::Ink;
use raster::shape::{Cell, Ends, Rect, Shape};

mod layers;
mod pixels;
mod spans;

/// The ink of that value.
fn ink(value: u8) -> Ink
    requires { value ≤ 15 }
    ensures { result.value ≡ value }
{
    Ink { value }
}

/// A box in an ink.
// One function for each variant, and not one that takes the shape: a shape written out takes up to six lines, and the tests here place eleven.
fn boxed(x: u16, y: u16, w: u16, h: u16, ink: Ink) -> Option<Placed>
    ensures { option_map item result ≡ Some (record { shape = Box (record { x = x; y = y; w = w; h = h }); ink = ink.value }) }
{
    let shape = Shape::Box(Rect { x, y, w, h });
    Some(Placed { shape, ink })
}

/// A line in an ink.
fn line(x0: u16, y0: u16, x1: u16, y1: u16, ink: Ink) -> Option<Placed>
    ensures { option_map item result ≡ Some (record { shape = Line (record { x0 = x0; y0 = y0; x1 = x1; y1 = y1 }); ink = ink.value }) }
{
    let shape = Shape::Line(Ends { x0, y0, x1, y1 });
    Some(Placed { shape, ink })
}

/// A figure in an ink.
fn figure(x: u16, y: u16, glyph: u16, ink: Ink) -> Option<Placed>
    ensures { option_map item result ≡ Some (record { shape = Figure (record { x = x; y = y; glyph = glyph }); ink = ink.value }) }
{
    let shape = Shape::Figure(Cell { x, y, glyph });
    Some(Placed { shape, ink })
}

/// A span that gives the ink to a shape.
fn span(shape: u16, from: u16, to: u16, ink: Ink) -> Option<Span>
    ensures { option_map turn result ≡ Some (record { shape = shape; from = from; to = to; ink = ink.value }) }
{
    Some(Span {
        shape,
        from,
        to,
        ink,
    })
}

/// The shapes in their own inks.
fn still<'a>(font: &'a Font, shapes: &'a [Option<Placed>]) -> Scene<'a>
    ensures { (result.font.now ≡ font.now) × (result.shapes.now ≡ shapes.now) × (result.spans.now ≡ []) × (result.frame ≡ 0) }
{
    Scene {
        font,
        shapes,
        spans: &[],
        frame: 0,
    }
}
