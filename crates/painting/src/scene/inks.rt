ghost use Rattle.std.specs.Prelude.{◌≡◌};
ghost use Rattle.std.specs.Option.{unwrap_or, option_map};
ghost use Rattle.painting.specs.Drawing.{holds as holds_frame, span_ink, ruling, RulingInk, shape_ink, painting, Fresh};
ghost use Rattle.painting.specs.Scenes.{drawing, item, turn, at_number};

use super::{Placed, Scene, Span};
use raster::ink::Ink;

impl Span {
    /// Whether the span names the shape of that number and holds the frame.
    pub fn holds(self, number: u16, frame: u16) -> bool
        ensures { result ≡ holds_frame (turn self) number frame }
    {
        self.shape == number && (self.from <= frame && frame <= self.to)
    }
}

/// What stands at a number of a table: nothing past its end, and nothing above 255.
pub fn entry_at<T: Copy>(table: &[Option<T>], n: usize) -> Option<T>
    ensures { result ≡ at_number table.now n }
{
    if n < 256 {
        table.get(n).copied().flatten()
    } else {
        None
    }
}

/// The ink that a span gives to a shape at a frame, else the ink below.
fn over_span(span: Option<Span>, number: u16, frame: u16, below: Ink) -> Ink
    ensures { result.value ≡ unwrap_or (span_ink (option_map turn span) number frame) below.value }
{
    match span {
        Some(span) if span.holds(number, frame) => span.ink,
        _ => below,
    }
}

impl Scene<'_> {
    /// The ruling ink of a shape with that number and own ink.
    pub fn ruling_ink(&self, number: u16, own: Ink) -> Ink
        ensures value { result.value ≡ ruling (drawing self.now) number own.value }
        ensures words { RulingInk (drawing self.now) number own.value result.value }
    {
        let mut ink = own;
        for span in self.spans.iter().take(256) {
            ink = over_span(*span, number, self.frame, ink);
        }
        ink
    }

    /// The ink that a shape gives to the pixel (x, y), else the ink below.
    fn over_shape(&self, placed: Option<Placed>, number: u16, x: u16, y: u16, below: u8) -> u8
        ensures { result ≡ unwrap_or (shape_ink (drawing self.now) x y (option_map item placed) number) below }
    {
        match placed {
            Some(placed) if placed.shape.covers(self.font, x, y) => {
                self.ruling_ink(number, placed.ink).value
            }
            _ => below,
        }
    }

    /// The ink of the pixel (x, y) in the fresh painting.
    pub fn ink_at(&self, x: u16, y: u16) -> u8
        ensures value { result ≡ painting (drawing self.now) x y }
        ensures words { Fresh (drawing self.now) x y result }
    {
        let mut ink = 0;
        for (number, placed) in (0..256).zip(self.shapes) {
            ink = self.over_shape(*placed, number, x, y, ink);
        }
        ink
    }
}
