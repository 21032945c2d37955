ghost use Rattle.std.specs.Prelude.{◌≡◌, ℕ, ◌+◌, ◌≤◌, ◌&&◌, if◌then◌else◌, Some, None, nat_le, nat_lt};
ghost use Rattle.cache.specs.Slots.{ink_at_lem, is_tile};

use super::Slot;
use handing::tile::Tile;
use raster::ink::Ink;

impl Slot {
    /// A slot for a tile, or an empty one, with no ink.
    pub(crate) fn blank(tile: Option<u8>) -> Slot
        ensures tile { result.tile ≡ tile }
        ensures inks { (k : ℕ) → ink_at_lem result k ≡ None }
    {
        Slot {
            tile,
            inks: [None; 256],
        }
    }

    /// The tile that the slot holds, if it holds one.
    pub(crate) fn tile(&self) -> Option<u8>
        ensures { result ≡ self.now.tile }
    {
        self.tile
    }

    /// Whether the slot holds the tile.
    pub(crate) fn holds(&self, tile: u8) -> bool
        ensures { result ≡ is_tile self.now.tile tile }
    {
        self.tile == Some(tile)
    }

    /// Gives the ink to n places from k on.
    pub(crate) fn put(&mut self, k: u8, n: u16, ink: Ink)
        requires { k + n ≤ 256 }
        ensures tile { self.new.tile ≡ self.old.tile }
        ensures inks { (j : ℕ) → ink_at_lem self.new j ≡ (if nat_le k j && nat_lt j (k + n) then Some ink.value else ink_at_lem self.old j) }
    {
        let first = k as usize;
        self.inks[first..first + n as usize].fill(Some(ink));
    }
}

impl Tile for Slot {
    ghost inks = { ink_at_lem };

    fn ink_at(&self, k: u8) -> Option<Ink> {
        self.inks[k as usize]
    }
}
