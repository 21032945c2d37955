ghost use Rattle.std.specs.Prelude.{◌≡◌, ◌<◌, MatchBool};
ghost use Rattle.surface.specs.Calls.{Ran, Settled};
ghost use Rattle.plane.specs.Layout.{row_bytes_lem, plane_bytes_lem, plane_bit};
ghost use Rattle.plane.specs.Panel.{Holds, Made, picture_of, picture_lawful, bytes_of, RunBytes, RestKept, SameLoan};

use super::memory::bit_at;
use super::{PlaneSurface, Planes};
use raster::refusal::Refusal;
use raster::size::Size;
use surface::surface::Surface;

/// The bytes of a row of a plane.
fn row_bytes(width: u16) -> usize
    ensures { result ≡ row_bytes_lem width }
{
    usize::from(width).div_ceil(8)
}

/// The bytes of a plane.
fn plane_bytes(width: u16, height: u16) -> usize
    ensures { result ≡ plane_bytes_lem width height }
{
    height as usize * row_bytes(width)
}

/// Whether so many bytes can hold a surface of these sides.
fn holds(width: u16, height: u16, room: usize) -> bool
    ensures { MatchBool result (Holds width height room) (Holds width height room → ⊥) }
{
    Size::new(width, height).is_ok() && 4 * plane_bytes(width, height) <= room
}

impl<'a> PlaneSurface<'a> {
    /// A surface of these sides, all paper, in the first bytes of the memory. Where a side is not 1
    /// to 256 or the memory is too small, it has no pixel and leaves the memory as it is.
    pub fn new(memory: &'a mut [u8], width: u16, height: u16) -> PlaneSurface<'a>
        ensures made { Made memory.old width height result }
        ensures lent { result.planes.memory.ghost_name ≡ memory.entry.ghost_name }
    {
        if !holds(width, height, memory.len()) {
            return PlaneSurface {
                planes: Planes { memory },
                width: 0,
                height: 0,
            };
        }
        memory[..4 * plane_bytes(width, height)].fill(0);
        PlaneSurface {
            planes: Planes { memory },
            width,
            height,
        }
    }

    /// The bit of pixel (x, y) on plane k.
    fn bit(&self, k: usize, x: u16, y: u16) -> u8
        requires plane { k < 4 }
        requires column { x < self.now.width }
        requires row { y < self.now.height }
        ensures { result ≡ plane_bit self.now.width self.now.height (bytes_of self.now) k x y }
    {
        let row = y as usize * row_bytes(self.width);
        let at = k * plane_bytes(self.width, self.height) + row + x as usize / 8;
        bit_at(self.planes.memory, at, x as usize % 8)
    }
}

// Beside the byte surface's, and not one generic type with it: every line that reads or writes differs, and a ghost field
// cannot name what a parameter's bound says of the bytes.
impl Surface for PlaneSurface<'_> {
    ghost view = { picture_of };

    ghost lawful = { picture_lawful };

    fn size(&self) -> (u16, u16) {
        (self.width, self.height)
    }

    fn read(&self, x: u16, y: u16) -> Result<u8, Refusal> {
        if !self.has(x, y) {
            return Err(Refusal::Surface);
        }
        let low = self.bit(0, x, y) + 2 * self.bit(1, x, y);
        let high = self.bit(2, x, y) + 2 * self.bit(3, x, y);
        Ok(low + 4 * high)
    }

    fn run(&mut self, x: u16, y: u16, n: u16, ink: u16) -> Result<(), Refusal>
        ensures means { Ran (picture_of self.old) x y n ink result (picture_of self.new) }
        ensures bytes { RunBytes self.old x y n ink result self.new }
        ensures rest { RestKept self.old self.new }
        ensures lent { SameLoan self.old self.new }
    {
        if !self.accepts(x, y, n, ink) {
            return Err(Refusal::Surface);
        }
        let bits = 8 * plane_bytes(self.width, self.height);
        let from = 8 * (y as usize * row_bytes(self.width)) + x as usize;
        self.planes.write(bits, from, n as usize, ink as u8);
        Ok(())
    }

    fn settle(&mut self)
        ensures means { Settled (picture_of self.old) (picture_of self.new) }
        ensures bytes { bytes_of self.new ≡ bytes_of self.old }
        ensures lent { SameLoan self.old self.new }
    {
        // Every taken ink shows already.
    }
}
