ghost use Rattle.std.specs.Prelude.{◌≡◌, ◌<◌, ◌≤◌, length, Some, None};
ghost use Rattle.cache_tests.specs.Waiting.{pixel, pictured, pictured_lawful};

use super::Waiting;
use super::inks::{show, take};
use raster::refusal::Refusal;
use surface::surface::Surface;

impl Waiting<'_> {
    /// The ink that pixel x shows, if there is such a pixel.
    pub fn shows(&self, x: u16) -> Option<u8>
        ensures { elim result [ Some ink ↦ (x < length self.now.pixels.now) × (ink ≡ (pixel self.now.pixels.now x).shown) | None ↦ length self.now.pixels.now ≤ x ] }
    {
        self.pixels.get(x as usize).map(|pixel| pixel.shown)
    }
}

impl Surface for Waiting<'_> {
    ghost view = { pictured };

    ghost lawful = { pictured_lawful };

    fn size(&self) -> (u16, u16) {
        (self.pixels.len() as u16, 1)
    }

    fn read(&self, x: u16, y: u16) -> Result<u8, Refusal> {
        if !self.has(x, y) {
            return Err(Refusal::Surface);
        }
        Ok(self.pixels[x as usize].taken)
    }

    fn run(&mut self, x: u16, y: u16, n: u16, ink: u16) -> Result<(), Refusal> {
        if !self.accepts(x, y, n, ink) {
            return Err(Refusal::Surface);
        }
        let first = x as usize;
        take(&mut self.pixels[first..first + n as usize], ink as u8);
        Ok(())
    }

    fn settle(&mut self) {
        show(self.pixels);
    }
}
