ghost use Rattle.std.specs.Prelude.{◌≡◌, ℕ, ◌+◌, ◌*◌, ◌/◌, ◌%◌, ◌<◌, if◌then◌else◌, slice_index};
ghost use Rattle.raster.specs.Shapes.{covers};
ghost use Rattle.raster.specs.Sizes.{tile_of, place};
ghost use Rattle.painting.specs.Drawing.{Drawing, painting as fresh_ink};
ghost use Rattle.tiling.specs.Places.{column_of, row_of};
ghost use Rattle.tiling.specs.Found.{ShapesOf, ShapesListed, RulingInks, laid};

use crate::inks::Inks;
use crate::marks::Marks;
use handing::spot::Spot;
use painting::scene::Placed;
use raster::font::Font;
use raster::ink::Ink;
use raster::shape::Shape;

/// Lays the ink on the places that the shape covers, in the tile at that spot.
fn lay(tile: &mut Inks, font: &Font, shape: Shape, ink: Ink, spot: Spot)
    ensures { (k : ℕ) → k < 256 → slice_index tile.new.values k ≡ (if covers font.now.rows shape (16 * spot.column + k % 16) (16 * spot.row + k / 16) then ink.value else slice_index tile.old.values k) }
{
    // By number: a place of the tile is one, and the pixel there follows from it.
    for k in 0..=u8::MAX {
        let (x, y) = spot.pixel(k);
        if shape.covers(font, x, y) {
            tile.put(k, ink);
        }
    }
}

/// The inks of tile t by those shapes whose numbers were found, in any order, each in its ink of `inks`; they are laid by
/// rising number. If these are the ruling inks, and every shape that meets the tile was found, it is the fresh painting.
// No `Scene`, though font and shapes are fields of it: it asks for the spans and the frame too, whose work `inks` has done.
pub fn tile_inks(
    font: &Font,
    shapes: &[Option<Placed>],
    inks: &Inks,
    found: &[u16],
    width: u16,
    t: u8,
) -> Inks
    ensures value { (k : ℕ) → k < 256 → slice_index result.values k ≡ laid font.now.rows shapes.now inks.now.values found.now (column_of width t k) (row_of width t k) }
    ensures whole { (d : Drawing) (height : ℕ) → d.font ≡ font.now.rows → ShapesOf shapes.now d → RulingInks d inks.now.values → ShapesListed d width height t found.now → (x y : ℕ) → x < width → y < height → tile_of width x y ≡ t → slice_index result.values (place x y) ≡ fresh_ink d x y }
{
    let listed = Marks::of(found);
    let spot = Spot::of(width, t);
    let mut tile = Inks::paper();
    // By number: a mark, an entry and an ink are asked for at each. With a zip over the table the mark and the ink would
    // still need the number: no plainer.
    for n in 0..256 {
        if let Some(placed) = listed.pick(shapes, n) {
            lay(&mut tile, font, placed.shape, inks.at(n as u8), spot);
        }
    }
    tile
}
