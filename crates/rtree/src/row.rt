//! Reading and writing one row.
ghost use Rattle.std.specs.Prelude.{◌≡◌, ℕ, ◌+◌, ◌*◌, ◌<◌, ◌≤◌, length, slice_index, slice_index_or, slice_set, ◌==◌, position};
ghost use Rattle.guttman.specs.Trees.{bound as join_of, choose as choice_of};
ghost use Rattle.node_rows.specs.Nodes.{extents_in, spare, Pushed};
ghost use Rattle.rtree.specs.Loans.{SameLoan};
ghost use Rattle.rtree.specs.Tables.{rows_in};

use crate::pick::{bound, choose};
use crate::table::Table;
use extent::entry::Entry;
use extent::extent::Measured;
use tree_search::view::View;

impl<M: Copy> Table<'_, M> {
    /// The entries of a row.
    pub(crate) fn row(&self, at: u8) -> &[Entry<M>]
        ensures { result.now ≡ rows_in self.now at }
    {
        let view = View {
            places: self.places,
            counts: &self.counts,
        };
        view.entries(at as usize)
    }

    // A row and a place in it are two numbers, not a struct: the loops count the second, and what makes such a struct would ask for
    // `i < 8` again.
    /// The entry at place i of a row.
    pub(crate) fn entry(&self, at: u8, i: usize) -> Entry<M>
        requires { i < 8 }
        ensures { result ≡ slice_index_or self.now.places.now (8 * at + i) result }
    {
        self.places[8 * at as usize + i]
    }

    /// Writes an entry at place i of a row.
    pub(crate) fn write(&mut self, at: u8, i: usize, entry: Entry<M>)
        requires { i < 8 }
        ensures stored { self.new.places.now ≡ slice_set self.old.places.now (8 * at + i) entry }
        ensures counted { self.new.counts ≡ self.old.counts }
        ensures lent { SameLoan self.old.places self.new.places }
    {
        self.places[8 * at as usize + i] = entry;
    }

    /// Writes an entry behind those of a row.
    pub(crate) fn push(&mut self, at: u8, entry: Entry<M>)
        requires { slice_index self.old.counts at < 8 }
        ensures pushed { Pushed self.old.places.now self.old.counts self.new.places.now self.new.counts at entry }
        ensures lent { SameLoan self.old.places self.new.places }
    {
        let n = self.counts[at as usize];
        self.write(at, n as usize, entry);
        self.counts[at as usize] = n + 1;
    }

    /// A row that is not in use.
    pub(crate) fn fresh(&self) -> u8
        requires { 0 < spare self.now.counts }
        ensures { slice_index self.now.counts result ≡ 0 }
    {
        match free(&self.counts) {
            Some(at) => at as u8,
            None => unreachable!(),
        }
    }
}

impl<M: Measured + Copy> Table<'_, M> {
    /// Where below a row an extent goes.
    pub(crate) fn chosen(&self, at: u8, e: M) -> usize
        requires { 0 < slice_index self.now.counts at }
        ensures is { result ≡ choice_of M.Measured.measure M.Extent.joined (extents_in (rows_in self.now at)) e }
        ensures below { result < slice_index self.now.counts at }
    {
        choose(self.row(at), e)
    }

    /// The join of the extents of a row in use.
    pub(crate) fn bounds(&self, at: u8) -> M
        requires { 0 < slice_index self.now.counts at }
        ensures { (d : _) → result ≡ join_of M.Measured.measure M.Extent.joined d (extents_in (rows_in self.now at)) }
    {
        bound(self.row(at))
    }
}

/// The first row that is not in use.
// A count of 0 is no `None` in a number: a row without entries is a free one.
fn free(counts: &[u8]) -> Option<usize>
    ensures { result ≡ position (λ n. n == 0) counts.now }
{
    counts.iter().position(|count| *count == 0)
}
