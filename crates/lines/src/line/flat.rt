ghost use Rattle.std.specs.Prelude.{◌≡◌, ◌^◌, ◌<◌, ◌≤◌};
ghost use Rattle.lines.specs.Lines.{toward, drift, dx, dy, flat, pixels, among};

use super::Ends;

/// The place i steps from `from` in the direction of `to`.
fn place(from: u16, to: u16, i: u64) -> u64
    requires { i < 2 ^ 40 }
    ensures { result ≡ toward from to i }
{
    if from <= to {
        from as u64 + i
    } else {
        (from as u64).saturating_sub(i)
    }
}

/// A line of several pixels whose way along x is no shorter than that along y.
#[derive(Clone, Copy)]
pub(crate) struct Flat {
    pub(crate) line: Ends,
    ghost several: { 0 < dx line },
    ghost longer: { dy line ≤ dx line },
}

impl Flat {
    /// How far the line has gone along y after i steps along x.
    fn drifted(self, i: u16) -> u64
        ensures value { result ≡ drift (dx self.line) (dy self.line) i }
        ensures bound { result < 2 ^ 40 }
    {
        let (long, short) = (self.line.dx(), self.line.dy());
        (2 * i as u64 * short as u64 + long as u64) / (2 * long as u64)
    }

    /// Where the line is along y, i steps from its first end.
    fn height_after(self, i: u16) -> u64
        ensures { result ≡ (flat self.line i).1 }
    {
        place(self.line.y0, self.line.y1, self.drifted(i))
    }

    /// Whether the pixel (x, y) is on the line.
    #[tactic(auto, using(crate::proofs::Lines::pixels_flat, crate::proofs::Lines::course_beside, crate::proofs::Lines::course_within))]
    pub(crate) fn covers(self, x: u16, y: u16) -> bool
        ensures { result ≡ among (pixels self.line) x y }
    {
        let (x0, x1) = (self.line.x0, self.line.x1);
        if x < x0.min(x1) || x > x0.max(x1) {
            return false;
        }
        self.height_after(x.abs_diff(x0)) == y as u64
    }

    /// Pixel i of the line.
    #[tactic(auto, using(crate::proofs::Lines::flat_within))]
    pub(crate) fn pixel(self, i: u16) -> (u16, u16)
        requires { i ≤ dx self.line }
        ensures { result ≡ flat self.line i }
    {
        let x = place(self.line.x0, self.line.x1, i as u64);
        (x as u16, self.height_after(i) as u16)
    }
}
