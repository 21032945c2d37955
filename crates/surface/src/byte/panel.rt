ghost use Rattle.std.specs.Prelude.{◌≡◌, MatchBool};
ghost use Rattle.surface.specs.Bytes.{place};
ghost use Rattle.surface.specs.Calls.{Ran, Settled};
ghost use Rattle.surface.specs.Panel.{Holds, Made, picture_of, picture_lawful, bytes_of, RunBytes, RestKept, SameLoan};

use super::memory::fill;
use super::{ByteSurface, Pixels};
use crate::surface::Surface;
use raster::refusal::Refusal;
use raster::size::Size;

/// Whether so many bytes can hold a surface of these sides.
fn holds(width: u16, height: u16, room: usize) -> bool
    ensures { MatchBool result (Holds width height room) (Holds width height room → ⊥) }
{
    Size::new(width, height).is_ok() && width as usize * height as usize <= room
}

/// The place of the byte of pixel (x, y).
fn place_of(width: u16, x: u16, y: u16) -> usize
    ensures { result ≡ place width x y }
{
    y as usize * width as usize + x as usize
}

impl<'a> ByteSurface<'a> {
    /// A surface of these sides, all paper, in the first bytes of the memory. Where a side is not 1
    /// to 256 or the memory is too small, it has no pixel and leaves the memory as it is.
    pub fn new(memory: &'a mut [u8], width: u16, height: u16) -> ByteSurface<'a>
        ensures made { Made memory.old width height result }
        ensures lent { result.pixels.memory.ghost_name ≡ memory.entry.ghost_name }
    {
        if !holds(width, height, memory.len()) {
            return ByteSurface {
                pixels: Pixels { memory },
                width: 0,
                height: 0,
            };
        }
        fill(memory, width as usize * height as usize, 0);
        ByteSurface {
            pixels: Pixels { memory },
            width,
            height,
        }
    }
}

impl Surface for ByteSurface<'_> {
    ghost view = { picture_of };

    ghost lawful = { picture_lawful };

    fn size(&self) -> (u16, u16) {
        (self.width, self.height)
    }

    fn read(&self, x: u16, y: u16) -> Result<u8, Refusal> {
        if !self.has(x, y) {
            return Err(Refusal::Surface);
        }
        let at = place_of(self.width, x, y);
        Ok(self.pixels.memory[at])
    }

    fn run(&mut self, x: u16, y: u16, n: u16, ink: u16) -> Result<(), Refusal>
        ensures means { Ran (picture_of self.old) x y n ink result (picture_of self.new) }
        ensures bytes { RunBytes self.old x y n ink result self.new }
        ensures rest { RestKept self.old self.new }
        ensures lent { SameLoan self.old self.new }
    {
        if !self.accepts(x, y, n, ink) {
            return Err(Refusal::Surface);
        }
        let start = place_of(self.width, x, y);
        self.pixels.write(start, n as usize, ink as u8);
        Ok(())
    }

    fn settle(&mut self)
        ensures means { Settled (picture_of self.old) (picture_of self.new) }
        ensures bytes { bytes_of self.new ≡ bytes_of self.old }
        ensures lent { SameLoan self.old self.new }
    {
        // Every taken ink shows already.
    }
}
