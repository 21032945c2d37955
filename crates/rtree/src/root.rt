//! Inserting an entry into a whole tree, whose root may be split.
ghost use Rattle.std.specs.Prelude.{◌≡◌, ℕ, ◌+◌, ◌<◌, [], ◌∷◌, length, slice_index};
ghost use Rattle.node_rows.specs.Nodes.{spare, Placed, SetUp, Added};
ghost use Rattle.rtree.specs.Loans.{SameLoan};
ghost use Rattle.rtree.specs.Tables.{rows_in};

use crate::node::{Node, above};
use crate::table::Table;
use extent::entry::Entry;
use extent::extent::Measured;

impl<M: Copy> Table<'_, M> {
    /// Sets up a node above two others, in a row that is not in use.
    fn crown(&mut self, top: u8, first: Entry<M>, second: Entry<M>)
        requires { slice_index self.old.counts top ≡ 0 }
        ensures set_up { SetUp self.old.places.now self.old.counts self.new.places.now self.new.counts top (first ∷ second ∷ []) }
        ensures lent { SameLoan self.old.places self.new.places }
    {
        self.push(top, first);
        self.push(top, second);
    }
}

impl<M: Measured + Copy> Table<'_, M> {
    /// Adds an entry to the tree with this root, and answers the root after that.
    pub(crate) fn add(&mut self, root: Node, entry: Entry<M>) -> Node
        requires placed { Placed (rows_in self.old) root.height root.row }
        requires some { root.height + 1 < spare self.old.counts }
        requires low { root.height < 256 }
        ensures added { Added self.old.places.now self.old.counts self.new.places.now self.new.counts M.Measured.measure M.Extent.joined root.height root.row result.height result.row entry }
        ensures lent { SameLoan self.old.places self.new.places }
    {
        let Some(new) = self.insert(root, entry) else {
            return root;
        };
        let first = above(self.bounds(root.row), root.row);
        let second = above(self.bounds(new), new);
        let top = self.fresh();
        self.crown(top, first, second);
        Node {
            height: root.height + 1,
            row: top,
        }
    }
}
