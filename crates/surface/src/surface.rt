ghost use Rattle.std.specs.Prelude.{◌≡◌, MatchBool};
ghost use Rattle.surface.specs.Picture.{Picture, Lawful, On};
ghost use Rattle.surface.specs.Calls.{Accepts, Sized, Read, Ran, Settled};

use raster::refusal::Refusal;

/// Something to paint on. Its picture is all that its users may know of it.
pub trait Surface {
    ghost view: { Self → Picture };

    ghost lawful: { (s : Self) → Lawful (view s) };

    /// The width and the height.
    // Two figures and no `Size`: a surface without a pixel has sides of 0.
    fn size(&self) -> (u16, u16)
        ensures { Sized (view self.now) result.0 result.1 };

    /// Whether (x, y) is one of its pixels.
    fn has(&self, x: u16, y: u16) -> bool
        ensures { MatchBool result (On (view self.now) x y) (On (view self.now) x y → ⊥) }
    {
        let (width, height) = self.size();
        x < width && y < height
    }

    /// The taken ink of the pixel (x, y); refuses with 30 outside the surface.
    fn read(&self, x: u16, y: u16) -> Result<u8, Refusal>
        ensures { Read (view self.now) x y result };

    /// Gives the ink to the n pixels from (x, y) to the right. Refuses with 30 if n is 0, the ink
    /// is above 15 or a pixel lies outside.
    // Four figures and no struct of a run: they are a call's own, and any of them may be bad.
    fn run(&mut self, x: u16, y: u16, n: u16, ink: u16) -> Result<(), Refusal>
        ensures { Ran (view self.old) x y n ink result (view self.new) };

    /// Whether a run has a pixel and an ink, and lies on the surface: `run` takes these.
    fn accepts(&self, x: u16, y: u16, n: u16, ink: u16) -> bool
        ensures { MatchBool result (Accepts (view self.now) x y n ink) (Accepts (view self.now) x y n ink → ⊥) }
    {
        let (width, height) = self.size();
        n > 0 && ink <= 15 && y < height && u32::from(x) + u32::from(n) <= u32::from(width)
    }

    /// Shows every taken ink.
    fn settle(&mut self)
        ensures { Settled (view self.old) (view self.new) };
}
