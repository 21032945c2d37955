ghost use Rattle.std.specs.Prelude.{◌≡◌, ℕ, Option};
ghost use Rattle.std.specs.Option.{option_map};

use raster::ink::Ink;

/// The 256 places of a tile, row by row, 16 to a row: each has an ink, or nothing.
pub trait Tile {
    ghost inks: { Self → ℕ → Option ℕ };

    /// The ink at place k, if there is one.
    fn ink_at(&self, k: u8) -> Option<Ink>
        ensures { option_map (λ i. i.value) result ≡ inks self.now k };
}
