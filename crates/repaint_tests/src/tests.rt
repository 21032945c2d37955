ghost use Rattle.std.specs.Prelude.{◌≤◌};

use painting::scene::{Placed, Span};
use raster::ink::Ink;
use raster::shape::{Bounds, Rect, Shape};

mod marks;
mod ruling;
mod tiles;

/// The ink of that number.
fn ink(value: u8) -> Ink
    requires { value ≤ 15 }
{
    Ink { value }
}

/// A box in an ink.
// As in the tests of painting, and so `span`: a crate of tests has nothing to hand on to another.
fn boxed(x: u16, y: u16, w: u16, h: u16, ink: Ink) -> Option<Placed> {
    Some(Placed {
        shape: Shape::Box(Rect { x, y, w, h }),
        ink,
    })
}

/// A span that gives the ink to a shape.
fn span(shape: u16, from: u16, to: u16, ink: Ink) -> Option<Span> {
    Some(Span {
        shape,
        from,
        to,
        ink,
    })
}

/// The pixels from left and top on that lie before right and bottom.
fn bounds(left: u32, top: u32, right: u32, bottom: u32) -> Bounds {
    Bounds {
        left,
        top,
        right,
        bottom,
    }
}
