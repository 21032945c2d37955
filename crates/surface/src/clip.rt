ghost use Rattle.surface.specs.Calls.{Inked};

use crate::surface::Surface;
use raster::ink::Ink;

/// Gives the ink to those of the n pixels from (x, y) to the right that the surface has.
pub fn run_clipped<S: Surface>(surface: &mut S, x: u32, y: u32, n: u32, ink: Ink)
    ensures { Inked (S.Surface.view surface.old) x y n ink.value (S.Surface.view surface.new) }
{
    let (width, height) = surface.size();
    if y < height as u32 && x < width as u32 {
        let count = n.min(width as u32 - x);
        let _ = surface.run(x as u16, y as u16, count as u16, ink.value as u16);
    }
}
