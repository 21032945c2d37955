ghost use Rattle.tiling.specs.Tiled.{Tiled};

use crate::inks::Inks;
use handing::down::hand_down;
use handing::spot::Spot;
use surface::surface::Surface;

/// Hands tile t down: its rows from the top, each in the longest runs of one ink from the left, cut off at the edges of the
/// surface. No run leaves the tile.
pub fn paint_tile<S: Surface>(surface: &mut S, t: u8, inks: &Inks)
    ensures { Tiled t inks.now.values (S.Surface.view surface.old) (S.Surface.view surface.new) }
{
    let (width, _) = surface.size();
    hand_down(surface, inks, Spot::of(width, t));
}
