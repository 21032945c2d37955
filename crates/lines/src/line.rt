ghost use Rattle.std.specs.Prelude.{◌≡◌, length};
ghost use Rattle.std.specs.List.{slice_get};
ghost use Rattle.lines.specs.Lines.{dx, dy, turned, pixels, among};
ghost use Rattle.lines.specs.Walks.{left};

use flat::Flat;
use pixels::Pixels;

mod flat;
pub mod pixels;

/// The two ends of a line.
#[derive(Clone, Copy, PartialEq, Eq)]
pub struct Ends {
    pub x0: u16,
    pub y0: u16,
    pub x1: u16,
    pub y1: u16,
}

impl Ends {
    /// How far its ends lie apart along x.
    fn dx(self) -> u16
        ensures { result ≡ dx self }
    {
        self.x0.abs_diff(self.x1)
    }

    /// How far its ends lie apart along y.
    fn dy(self) -> u16
        ensures { result ≡ dy self }
    {
        self.y0.abs_diff(self.y1)
    }

    /// The line with x and y exchanged.
    fn exchanged(self) -> Ends
        ensures { result ≡ turned self }
    {
        Ends {
            x0: self.y0,
            y0: self.x0,
            x1: self.y1,
            y1: self.x1,
        }
    }

    /// Whether the line covers the pixel (x, y), told in constant time.
    #[tactic(auto, using(crate::proofs::Lines::among_pixels_turned, crate::proofs::Lines::dot_row, crate::proofs::Lines::dot_beside))]
    pub fn covers(self, x: u16, y: u16) -> bool
        ensures { result ≡ among (pixels self) x y }
    {
        if self.dy() > self.dx() {
            let line = self.exchanged();
            Flat { line }.covers(y, x)
        } else if self.dx() > 0 {
            Flat { line: self }.covers(x, y)
        } else {
            x == self.x0 && y == self.y0
        }
    }

    /// How many pixels the line has.
    #[tactic(auto, using(crate::proofs::Lines::pixels_length))]
    pub fn count(self) -> u32
        ensures { result ≡ length (pixels self) }
    {
        self.dx().max(self.dy()) as u32 + 1
    }

    /// Pixel i of the line, counted from 0 at its first end; none past its last.
    #[tactic(auto, using(crate::proofs::Lines::pixels_length, crate::proofs::Lines::flat_at, crate::proofs::Lines::steep_at, crate::proofs::Lines::dot_at))]
    pub fn pixel(self, i: u32) -> Option<(u16, u16)>
        ensures { result ≡ slice_get (pixels self) i }
    {
        if i >= self.count() {
            return None;
        }
        if self.dy() > self.dx() {
            let line = self.exchanged();
            let (y, x) = Flat { line }.pixel(i as u16);
            Some((x, y))
        } else if self.dx() > 0 {
            Some(Flat { line: self }.pixel(i as u16))
        } else {
            Some((self.x0, self.y0))
        }
    }

    /// The pixels of the line, from its first end to its last.
    pub fn pixels(self) -> Pixels
        ensures { left result ≡ pixels self }
    {
        Pixels {
            line: self,
            places: 0..self.count(),
        }
    }
}
