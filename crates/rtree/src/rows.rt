//! Rows of eight entries each, in memory that the caller lends.
ghost use Rattle.std.specs.Prelude.{◌≡◌, ℕ, ◌+◌, ◌<◌, length, slice_index, min};
ghost use Rattle.std.proofs.lemmas.List.Edits.{sets};
ghost use Rattle.node_rows.specs.Rows.{row as row_of};
ghost use Rattle.node_rows.specs.Nodes.{spare, Ready, Placed, Added};
ghost use Rattle.node_rows.specs.Walks.{codes_below};

use crate::node::Node;
use crate::table::Table;
use extent::entry::Entry;
use extent::extent::{Extent, Measured};
use tree_search::query::Query;
use tree_search::view::View;

/// The places of 256 rows.
pub(crate) const PLACES: usize = 2048;

/// The lent places, of which row r has the eight from place 8 r on, and how many of them each row uses.
// The bounds of the counts stand in `Tree`, not here: tried as ghost fields of this struct, they left it unproved what the places hold once
// the table that borrowed them is gone.
#[derive(Drop)]
pub struct Rows<'a, E> {
    places: &'a mut [Entry<E>],
    counts: [u8; 256],
}

impl<'a, E> Rows<'a, E> {
    /// Rows of which none is in use.
    pub(crate) fn new(places: &'a mut [Entry<E>]) -> Rows<'a, E>
        ensures wide { length result.counts ≡ 256 }
        ensures zero { (q : ℕ) → slice_index result.counts q ≡ 0 }
        ensures places { result.places.now ≡ places.old }
        ensures lent { result.places.ghost_name ≡ places.entry.ghost_name }
    {
        let counts = [0; 256];
        Rows { places, counts }
    }

    /// How many places were lent.
    pub(crate) fn len(&self) -> usize
        ensures { result ≡ length self.now.places.now }
    {
        self.places.len()
    }

    /// The rows, to be read.
    fn view(&self) -> View<'_, '_, E>
        ensures places { result.places.now ≡ self.now.places.now }
        ensures counts { result.counts.now ≡ self.now.counts }
    {
        View {
            places: self.places,
            counts: &self.counts,
        }
    }

    /// The entries of a row.
    pub(crate) fn row(&self, at: usize) -> &[Entry<E>]
        ensures { result.now ≡ row_of self.now.places.now self.now.counts at }
    {
        self.view().entries(at)
    }
}

impl<E: Extent> Rows<'_, E> {
    /// Writes the codes of what passes the query in the tree with this root, and answers how many.
    pub(crate) fn look_up<Q: Query<E>>(&self, root: Node, query: &Q, list: &mut [u16]) -> usize
        ensures count { result ≡ min (length (codes_below (Q.Query.passing query.now) self.now.places.now self.now.counts root.height root.row)) (length list.old) }
        ensures wrote { list.new ≡ sets list.old 0 (codes_below (Q.Query.passing query.now) self.now.places.now self.now.counts root.height root.row) }
    {
        self.view()
            .look_up(root.height, root.row as usize, query, list)
    }
}

impl<E: Measured + Copy> Rows<'_, E> {
    /// Adds an entry to the tree with this root, and answers the root after that.
    pub(crate) fn add(&mut self, root: Node, entry: Entry<E>) -> Node
        requires ready { Ready self.old.places.now self.old.counts }
        requires placed { Placed (row_of self.old.places.now self.old.counts) root.height root.row }
        requires some { root.height + 1 < spare self.old.counts }
        requires low { root.height < 256 }
        ensures added { Added self.old.places.now self.old.counts self.new.places.now self.new.counts E.Measured.measure E.Extent.joined root.height root.row result.height result.row entry }
        ensures long { length self.new.places.now ≡ length self.old.places.now }
        ensures lent { self.new.places.ghost_name ≡ self.old.places.ghost_name }
    {
        let mut table = Table {
            places: self.places,
            counts: self.counts,
        };
        let root = table.add(root, entry);
        self.counts = table.counts;
        root
    }
}
