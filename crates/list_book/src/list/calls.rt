ghost use Rattle.std.specs.Prelude.{◌≡◌, ℕ, None};
ghost use Rattle.painting.specs.Scenes.{at_number, drawing};
ghost use Rattle.raster.specs.Shapes.{covers};
ghost use Rattle.list_book.specs.Book.{place_refusal, placing, span_refusal, spanning, turning, left_by};
ghost use Rattle.list_book.specs.Counts.{pixels_in};
ghost use Rattle.list_book.specs.Views.{book, drawn, refused, Made};

use super::ShapeList;
use crate::count::pixel_count;
use painting::scene::{Placed, Scene, Span};
use raster::font::Font;
use raster::ink::Ink;
use raster::refusal::Refusal;
use raster::shape::Shape;
use raster::size::Size;

/// Nothing at every number.
fn nothing<T: Copy>() -> [Option<T>; 256]
    ensures { (n : ℕ) → at_number result n ≡ None }
{
    [None; 256]
}

impl ShapeList {
    /// An empty list for a sheet with these sides; refuses with 3 if one is outside 1 to 256.
    pub fn new(width: u16, height: u16) -> Result<ShapeList, Refusal>
        ensures { Made width height result }
    {
        let size = Size::new(width, height)?;
        Ok(ShapeList {
            size,
            shapes: nothing(),
            spans: nothing(),
            frame: 0,
        })
    }

    /// Places a shape in an ink at a number, in the place of what was there. Refuses with 6 if the
    /// number is above 255, 9 for bad figures or a bad ink, 10 if the shape leaves the sheet.
    pub fn place(&mut self, number: u16, shape: Shape, ink: u16) -> Result<(), Refusal>
        ensures answer { refused result ≡ place_refusal (book self.old) number shape ink }
        ensures after { book self.new ≡ left_by (place_refusal (book self.old) number shape ink) (book self.old) (placing (book self.old) number shape ink) }
    {
        if number > 255 {
            return Err(Refusal::Number);
        }
        shape.check_figures()?;
        let ink = Ink::try_from(ink)?;
        shape.check_bounds(self.size)?;
        self.shapes[number as usize] = Some(Placed { shape, ink });
        Ok(())
    }

    /// Adds a span: the shape has the ink from one frame to another. Refuses with 6 if a number is
    /// above 255, 7 if the span's number is used, 8 if the shape's is unused, 12 if the first frame
    /// is above the last, 9 for a bad ink.
    // Five figures, as a caller has them, and no `Span`: each of them may be bad, and a `Span` has an ink that is good.
    pub fn span(
        &mut self,
        number: u16,
        shape: u16,
        from: u16,
        to: u16,
        ink: u16,
    ) -> Result<(), Refusal>
        ensures answer { refused result ≡ span_refusal (book self.old) number shape from to ink }
        ensures after { book self.new ≡ left_by (span_refusal (book self.old) number shape from to ink) (book self.old) (spanning (book self.old) number shape from to ink) }
    {
        if number > 255 || shape > 255 {
            return Err(Refusal::Number);
        }
        if self.spans[number as usize].is_some() {
            return Err(Refusal::Used);
        }
        if self.shapes[shape as usize].is_none() {
            return Err(Refusal::Unused);
        }
        if from > to {
            return Err(Refusal::Frames);
        }
        let ink = Ink::try_from(ink)?;
        self.spans[number as usize] = Some(Span {
            shape,
            from,
            to,
            ink,
        });
        Ok(())
    }

    /// Sets the frame.
    pub fn turn(&mut self, frame: u16)
        ensures { book self.new ≡ turning (book self.old) frame }
    {
        self.frame = frame;
    }

    /// The sheet's width and height.
    pub fn sides(&self) -> (u16, u16)
        ensures { (result.0 ≡ (book self.now).wide) × (result.1 ≡ (book self.now).high) }
    {
        (self.size.width, self.size.height)
    }

    /// The frame to paint.
    pub fn frame(&self) -> u16
        ensures { result ≡ (book self.now).frame }
    {
        self.frame
    }

    /// How many pixels of the sheet a shape covers.
    pub fn covered(&self, font: &Font, shape: Shape) -> u32
        ensures { result ≡ pixels_in (covers font.now.rows shape) (book self.now).wide (book self.now).high }
    {
        pixel_count(font, shape, self.size)
    }

    /// What there is to paint.
    pub fn scene<'a>(&'a self, font: &'a Font) -> Scene<'a>
        ensures { drawing result ≡ drawn font.now.rows (book self.now) }
    {
        Scene {
            font,
            shapes: &self.shapes,
            spans: &self.spans,
            frame: self.frame,
        }
    }
}
