ghost use Rattle.std.specs.Prelude.{◌≡◌, ℕ, ◌/◌, ◌%◌, ◌<◌, ◌≤◌, ◌&&◌, ◌||◌, ◌==◌, nat_le, nat_lt};
ghost use Rattle.book.specs.Tiles.{tile_box, share};
ghost use Rattle.repaint.specs.Marked.{marked};

use super::Marks;
use raster::shape::Bounds;
use raster::tile::columns;

impl Marks {
    /// Marks the tiles from column `from` up to `to` of a row of tiles.
    fn mark_row(&mut self, across: u32, row: u32, from: u32, to: u32)
        requires { (from ≤ to) × (to ≤ across) × (across ≤ 4096) × (row < 4096) }
        ensures { (t : ℕ) → marked self.new t ≡ (marked self.old t || (nat_lt t 256 && (row == t / across && (nat_le from (t % across) && nat_lt (t % across) to)))) }
    {
        for column in from..to {
            self.put(row * across + column);
        }
    }

    /// Marks the tiles that meet the box, on a sheet with those sides.
    // Two sides and no `Size`, as they come: a side may be 0 here, and then no tile is marked.
    pub fn mark(&mut self, width: u16, height: u16, bounds: Bounds)
        ensures { (t : ℕ) → marked self.new t ≡ (marked self.old t || (nat_lt t 256 && share (tile_box width height t) bounds)) }
    {
        let right = bounds.right.min(width as u32);
        let bottom = bounds.bottom.min(height as u32);
        if bounds.left >= right || bounds.top >= bottom {
            return;
        }
        let across = columns(width);
        for row in bounds.top / 16..(bottom + 15) / 16 {
            self.mark_row(across, row, bounds.left / 16, (right + 15) / 16);
        }
    }
}
