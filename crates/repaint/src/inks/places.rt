ghost use Rattle.std.specs.Prelude.{◌≡◌, ℕ, if◌then◌else◌, Some, nat_eq, slice_index};

use super::Inks;
use handing::tile::Tile;
use raster::ink::Ink;

impl Inks {
    /// Paper everywhere.
    pub(crate) fn paper() -> Inks
        ensures { (k : ℕ) → slice_index result.values k ≡ 0 }
    {
        Inks { values: [0; 256] }
    }

    /// The ink at k.
    pub fn at(&self, k: u8) -> Ink
        ensures { result.value ≡ slice_index self.now.values k }
    {
        Ink {
            value: self.values[k as usize],
        }
    }

    /// Puts an ink at k.
    pub(crate) fn put(&mut self, k: u8, ink: Ink)
        ensures { (j : ℕ) → slice_index self.new.values j ≡ (if nat_eq j k then ink.value else slice_index self.old.values j) }
    {
        self.values[k as usize] = ink.value;
    }
}

impl Tile for Inks {
    ghost inks = { λ i k. Some (slice_index i.values k) };

    fn ink_at(&self, k: u8) -> Option<Ink> {
        Some(self.at(k))
    }
}
