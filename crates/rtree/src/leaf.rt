//! Taking an entry out of a row, and a pair out of a leaf.
ghost use Rattle.std.specs.Prelude.{◌≡◌, ◌<◌, ◌≤◌, true, false, length, slice_index, position};
ghost use Rattle.guttman.specs.Cutting.{is_pair};
ghost use Rattle.node_rows.specs.Removal.{as_pair, before_pair, TakenOut};
ghost use Rattle.rtree.specs.Loans.{SameLoan};
ghost use Rattle.rtree.specs.Tables.{rows_in};

use crate::table::Table;
use extent::entry::Entry;
use extent::extent::Extent;

/// Whether two entries are one pair: their extents cover each other, and their codes are equal.
// Not by `==`: a bound `PartialEq` would ask more of each kind of extents.
fn same_pair<M: Extent + Copy>(entry: &Entry<M>, pair: &Entry<M>) -> bool
    ensures { result ≡ is_pair M.Extent.covering pair.now.extent pair.now.code (as_pair entry.now) }
{
    entry.extent.covers(&pair.extent)
        && pair.extent.covers(&entry.extent)
        && entry.code == pair.code
}

/// Where in a row the pair stands first.
fn place_of<M: Extent + Copy>(row: &[Entry<M>], pair: &Entry<M>) -> Option<usize>
    ensures { result ≡ position (λ x. is_pair M.Extent.covering pair.now.extent pair.now.code (as_pair x)) row.now }
{
    row.iter().position(|entry| same_pair(entry, pair))
}

impl<M: Extent + Copy> Table<'_, M> {
    /// Takes the entry at place i out of a row; the last one takes its place.
    pub(crate) fn take_out(&mut self, at: u8, i: usize)
        requires { i < slice_index self.old.counts at }
        ensures taken { TakenOut self.old.places.now self.old.counts self.new.places.now self.new.counts at i }
        ensures lent { SameLoan self.old.places self.new.places }
    {
        let last = self.counts[at as usize] - 1;
        let moved = self.entry(at, last as usize);
        self.write(at, i, moved);
        self.counts[at as usize] = last;
    }

    // The answer is whether a pair was taken out; the caller has that pair already.
    /// Takes the first copy of a pair out of a leaf, if there is one.
    pub(crate) fn cut_leaf(&mut self, at: u8, pair: &Entry<M>) -> bool
        ensures found { result ≡ true → (before_pair M.Extent.covering pair.now.extent pair.now.code (rows_in self.old at) < length (rows_in self.old at)) × TakenOut self.old.places.now self.old.counts self.new.places.now self.new.counts at (before_pair M.Extent.covering pair.now.extent pair.now.code (rows_in self.old at)) }
        ensures missing { result ≡ false → (length (rows_in self.old at) ≤ before_pair M.Extent.covering pair.now.extent pair.now.code (rows_in self.old at)) × (self.new.places.now ≡ self.old.places.now) × (self.new.counts ≡ self.old.counts) }
        ensures lent { SameLoan self.old.places self.new.places }
    {
        match place_of(self.row(at), pair) {
            Some(i) => {
                self.take_out(at, i);
                true
            }
            None => false,
        }
    }
}
