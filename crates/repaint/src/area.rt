ghost use Rattle.extent.specs.Boxes.{IsPlaneBox};
ghost use Rattle.book.specs.Tiles.{tile_box};

use extent::plane_box::PlaneBox;
use handing::spot::Spot;
use raster::shape::Bounds;

/// The plane box of tile t, cut off at the edges, if a sheet with those sides has such a tile.
// Two sides and no `Size`, as they come: a side may be 0 here, and then there is no tile.
pub fn tile_area(width: u16, height: u16, t: u8) -> Option<PlaneBox>
    ensures { IsPlaneBox (tile_box width height t) result }
{
    let (left, top) = Spot::of(width, t).pixel(0);
    PlaneBox::of_bounds(Bounds {
        left: left.into(),
        top: top.into(),
        right: (left + 16).min(width).into(),
        bottom: (top + 16).min(height).into(),
    })
}
