ghost use Rattle.std.specs.Prelude.{◌≡◌, ℕ, ◌-◌, true, ◌&&◌, List, nat_le};
ghost use Rattle.basics.specs.Fonts.{lit};
ghost use Rattle.basics.specs.Refusals.{Tested};
ghost use Rattle.raster.specs.Shapes.{of_the, covers as covers_pixel, bounds_of, inside, drawable, on_sheet};

use super::{Bounds, Cell, Rect, Shape};
use basics::font::Font;
use basics::refusal::Refusal;
use basics::size::Size;

impl Rect {
    /// Whether the box covers the pixel (x, y).
    fn covers(self, x: u16, y: u16) -> bool
        ensures { result ≡ (of_the self.w self.x x && of_the self.h self.y y) }
    {
        let (column, row) = (x as u32, y as u32);
        let right = self.x as u32 + self.w as u32;
        let bottom = self.y as u32 + self.h as u32;
        (self.x <= x && column < right) && (self.y <= y && row < bottom)
    }
}

impl Cell {
    /// Whether the figure covers the pixel (x, y).
    fn covers(self, font: &Font, x: u16, y: u16) -> bool
        ensures { result ≡ ((nat_le self.x x && nat_le self.y y) && lit font.now.rows self.glyph (x - self.x) (y - self.y)) }
    {
        if x < self.x || y < self.y {
            return false;
        }
        font.lights(self.glyph, x - self.x, y - self.y)
    }
}

impl Shape {
    /// Whether the shape covers the pixel (x, y).
    pub fn covers(self, font: &Font, x: u16, y: u16) -> bool
        ensures { result ≡ covers_pixel font.now.rows self x y }
    {
        match self {
            Shape::Box(rect) => rect.covers(x, y),
            Shape::Line(ends) => ends.covers(x, y),
            Shape::Figure(cell) => cell.covers(font, x, y),
        }
    }

    /// The bounding box, around every pixel that the shape covers.
    pub fn bounds(self) -> Bounds
        ensures value { result ≡ bounds_of self }
        ensures around { (font : List ℕ) (x y : ℕ) → covers_pixel font self x y ≡ true → inside result x y ≡ true }
    {
        match self {
            Shape::Box(b) => Bounds {
                left: b.x as u32,
                top: b.y as u32,
                right: b.x as u32 + b.w as u32,
                bottom: b.y as u32 + b.h as u32,
            },
            Shape::Line(l) => Bounds {
                left: l.x0.min(l.x1) as u32,
                top: l.y0.min(l.y1) as u32,
                right: l.x0.max(l.x1) as u32 + 1,
                bottom: l.y0.max(l.y1) as u32 + 1,
            },
            Shape::Figure(f) => Bounds {
                left: f.x as u32,
                top: f.y as u32,
                right: f.x as u32 + 8,
                bottom: f.y as u32 + 16,
            },
        }
    }

    /// Refuses with 9 a box with a side of 0, and a glyph above 15.
    pub fn check_figures(self) -> Result<(), Refusal>
        ensures { Tested (drawable self) 9 result }
    {
        let drawable = match self {
            Shape::Box(rect) => rect.w > 0 && rect.h > 0,
            Shape::Line(_) => true,
            Shape::Figure(cell) => cell.glyph <= 15,
        };
        if drawable {
            Ok(())
        } else {
            Err(Refusal::Figures)
        }
    }

    /// Refuses with 10 a shape whose bounding box leaves a sheet of that size.
    pub fn check_bounds(self, size: Size) -> Result<(), Refusal>
        ensures { Tested (on_sheet size.width size.height self) 10 result }
    {
        let bounds = self.bounds();
        if bounds.right <= size.width as u32 && bounds.bottom <= size.height as u32 {
            Ok(())
        } else {
            Err(Refusal::Outside)
        }
    }
}
