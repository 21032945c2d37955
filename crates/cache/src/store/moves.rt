ghost use Rattle.std.specs.Prelude.{◌≡◌, ℕ, ◌+◌, ◌%◌, ◌<◌, ◌≤◌, true, false, None, ◌≢◌, MatchOption};
ghost use Rattle.std.specs.Option.{option_map};
ghost use Rattle.raster.specs.Sizes.{tile_of, place};
ghost use Rattle.surface.specs.Picture.{On};
ghost use Rattle.surface.specs.Calls.{Accepts};
ghost use Rattle.cache.specs.Slots.{tile_at, is_tile, held};
ghost use Rattle.cache.specs.Cached.{held_for, picture, run_inks, Quiet};
ghost use Rattle.handing.specs.Given.{Given};

use super::Cache;
use crate::pour::{pour, pour_all};
use crate::slot::Slot;
use handing::tile::Tile;
use raster::ink::Ink;
use raster::tile::tile_number;
use surface::surface::Surface;

impl<S: Surface> Cache<S> {
    /// Empties slot i downwards.
    fn empty(&mut self, i: usize)
        requires { i < 4 }
        ensures quiet { Quiet (picture S.Surface.view self.old) (picture S.Surface.view self.new) }
        ensures free { tile_at self.new.slots i ≡ None }
        ensures others { (j : ℕ) → (i ≢ j) → tile_at self.new.slots j ≡ tile_at self.old.slots j }
        ensures next { self.new.next ≡ self.old.next }
    {
        // Copied out: `pour(&mut self.below, &self.slots[i])` was tried, and the prover has no rule for an entry of one field
        // that is lent beside another field.
        let slot = self.slots[i];
        pour(&mut self.below, &slot);
        self.slots[i] = Slot::blank(None);
    }

    /// Empties all slots downwards.
    pub(super) fn empty_all(&mut self)
        ensures quiet { Quiet (picture S.Surface.view self.old) (picture S.Surface.view self.new) }
        ensures free { (t k : ℕ) → held self.new.slots t k ≡ None }
    {
        pour_all(&mut self.below, &mut self.slots);
    }

    /// The slot that holds the tile, if one does.
    fn find(&self, tile: u8) -> Option<usize>
        ensures { MatchOption result ((j : ℕ) → is_tile (tile_at self.now.slots j) tile ≡ false) (λ i. (i < 4) × (is_tile (tile_at self.now.slots i) tile ≡ true)) }
    {
        self.slots.iter().position(|slot| slot.holds(tile))
    }
}

impl<S: Surface> Cache<S> {
    /// The slot of a tile: the one that holds it, else the next in turn, which is emptied for it.
    fn claim(&mut self, tile: u8) -> usize
        ensures bound { result < 4 }
        ensures holds { is_tile (tile_at self.new.slots result) tile ≡ true }
        ensures quiet { Quiet (picture S.Surface.view self.old) (picture S.Surface.view self.new) }
    {
        if let Some(found) = self.find(tile) {
            return found;
        }
        let i = self.next;
        self.empty(i);
        self.slots[i] = Slot::blank(Some(tile));
        self.next = (i + 1) % self.slots.len();
        i
    }
}

impl<S: Surface> Cache<S> {
    /// The tile of a pixel, and its place there.
    fn locate(&self, x: u16, y: u16) -> (u8, u8)
        requires { On (S.Surface.view self.now.below) x y }
        ensures tile { result.0 ≡ tile_of (S.Surface.view self.now.below).wide x y }
        ensures place { result.1 ≡ place x y }
    {
        let (width, _) = self.below.size();
        let tile = tile_number(width, x, y);
        (tile as u8, (16 * (y % 16) + x % 16) as u8)
    }

    /// Gives the ink to n pixels of one tile, from (x, y) to the right.
    fn put_part(&mut self, x: u16, y: u16, n: u16, ink: Ink)
        requires tile { x % 16 + n ≤ 16 }
        requires inside { On (S.Surface.view self.old.below) x y }
        ensures { Given (run_inks x y n ink.value) (picture S.Surface.view self.old) (picture S.Surface.view self.new) }
    {
        let (tile, place) = self.locate(x, y);
        let i = self.claim(tile);
        // Copied out and back: `self.slots[i].put(..)` was tried, and the check fails to build its proof where an entry of
        // a field is lent as `&mut`, since the cache's invariant reads that field whole.
        let mut slot = self.slots[i];
        slot.put(place, n, ink);
        self.slots[i] = slot;
    }

    /// Gives the ink to the n pixels from (x, y) to the right, tile by tile.
    // Four figures as `run` has them: accepted by then, but a struct for them would be made in `run` and taken apart here.
    pub(super) fn put_run(&mut self, x: u16, y: u16, n: u16, ink: Ink)
        requires { Accepts (S.Surface.view self.old.below) x y n ink.value }
        ensures { Given (run_inks x y n ink.value) (picture S.Surface.view self.old) (picture S.Surface.view self.new) }
    {
        let end = x + n;
        for column in x / 16..(end + 15) / 16 {
            let from = x.max(16 * column);
            let to = end.min(16 * column + 16);
            self.put_part(from, y, to - from, ink);
        }
    }

    /// The ink that the slots have for a pixel, if they have one.
    pub(super) fn held_ink(&self, x: u16, y: u16) -> Option<Ink>
        requires { On (S.Surface.view self.now.below) x y }
        ensures { option_map (λ i. i.value) result ≡ held_for self.now.slots (S.Surface.view self.now.below).wide x y }
    {
        let (tile, place) = self.locate(x, y);
        let i = self.find(tile)?;
        self.slots[i].ink_at(place)
    }
}
