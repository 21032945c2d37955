ghost use Rattle.std.specs.Prelude.{◌≡◌, ◌≤◌};
ghost use Rattle.raster.specs.Shapes.{covers};
ghost use Rattle.list_book.specs.Counts.{tally, pixels_in};

use raster::font::Font;
use raster::shape::Shape;
use raster::size::Size;

/// How many pixels of row y, in that width, the shape covers.
fn row_count(font: &Font, shape: Shape, width: u16, y: u16) -> u32
    ensures value { result ≡ tally (λ x. covers font.now.rows shape x y) width }
    ensures bound { result ≤ width }
{
    (0..width)
        .map(|x| u32::from(shape.covers(font, x, y)))
        .sum()
}

/// How many pixels of a sheet of that size the shape covers.
pub(crate) fn pixel_count(font: &Font, shape: Shape, size: Size) -> u32
    ensures { result ≡ pixels_in (covers font.now.rows shape) size.width size.height }
{
    (0..size.height)
        .map(|y| row_count(font, shape, size.width, y))
        .sum()
}
