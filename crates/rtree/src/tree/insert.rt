ghost use Rattle.std.specs.Prelude.{◌≡◌};
ghost use Rattle.rtree.specs.Held.{Insertion};

use super::Tree;
use crate::rows::PLACES;
use extent::entry::Entry;
use extent::extent::{Extent, Measured};
use raster::refusal::Refusal;

/// The most pairs that a tree stores.
const MOST: usize = 256;

impl<E: Measured + Copy> Tree<'_, E> {
    /// Stores a pair. Over fewer than 256 rows, and then where 256 pairs are stored, it is refused and nothing changes.
    pub fn insert(&mut self, extent: E, code: u16) -> Result<(), Refusal>
        ensures answer { Insertion E.Measured.measure E.Extent.joined E.Extent.covering self.old extent code result self.new }
        ensures lent { self.new.rows.places.ghost_name ≡ self.old.rows.places.ghost_name }
    {
        if self.rows.len() < PLACES {
            return Err(Refusal::Rows);
        }
        if self.stored >= MOST {
            return Err(Refusal::Full);
        }
        self.root = self.rows.add(self.root, Entry { extent, code });
        self.stored += 1;
        Ok(())
    }
}
