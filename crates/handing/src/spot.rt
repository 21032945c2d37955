ghost use Rattle.std.specs.Prelude.{◌≡◌, ◌+◌, ◌*◌, ◌/◌, ◌%◌};
ghost use Rattle.raster.specs.Sizes.{across};

use raster::tile::columns;

/// Where a tile stands among the tiles of a sheet.
#[derive(Clone, Copy, PartialEq, Eq)]
pub struct Spot {
    pub column: u8,
    pub row: u8,
}

impl Spot {
    /// The spot of tile t on a sheet of that width. A sheet without a column has no tile; any t then counts as a place in one row.
    pub fn of(width: u16, t: u8) -> Spot
        ensures { (result.column ≡ t % across width) × (result.row ≡ t / across width) }
    {
        let columns = columns(width);
        if columns == 0 {
            return Spot { column: t, row: 0 };
        }
        Spot {
            column: (t as u32 % columns) as u8,
            row: (t as u32 / columns) as u8,
        }
    }

    /// The pixel at place k of the tile.
    pub fn pixel(self, k: u8) -> (u16, u16)
        ensures { (result.0 ≡ 16 * self.column + k % 16) × (result.1 ≡ 16 * self.row + k / 16) }
    {
        let (column, row) = (self.column as u16, self.row as u16);
        (16 * column + k as u16 % 16, 16 * row + k as u16 / 16)
    }
}
