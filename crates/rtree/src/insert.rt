//! Inserting an entry below a node.
ghost use Rattle.std.specs.Prelude.{◌≡◌, ℕ, ◌+◌, ◌<◌, length};
ghost use Rattle.node_rows.specs.Nodes.{spare, Placed, Inserted};
ghost use Rattle.rtree.specs.Loans.{SameLoan};
ghost use Rattle.rtree.specs.Tables.{rows_in};

use crate::node::{Node, above};
use crate::table::Table;
use extent::entry::Entry;
use extent::extent::Measured;

impl<M: Measured + Copy> Table<'_, M> {
    /// Inserts an entry into the tree at a node; where its row is split, the new row is the answer.
    pub(crate) fn insert(&mut self, node: Node, entry: Entry<M>) -> Option<u8>
        requires placed { Placed (rows_in self.old) node.height node.row }
        requires some { node.height < spare self.old.counts }
        ensures inserted { Inserted self.old.places.now self.old.counts self.new.places.now self.new.counts M.Measured.measure M.Extent.joined node.height node.row result entry }
        ensures lent { SameLoan self.old.places self.new.places }
    {
        if node.height == 0 {
            return self.deal(node.row, entry);
        }
        let i = self.chosen(node.row, entry.extent);
        let child = Node {
            height: node.height - 1,
            row: self.entry(node.row, i).code as u8,
        };
        let split = self.insert(child, entry);
        let renewed = above(self.bounds(child.row), child.row);
        match split {
            None => {
                self.write(node.row, i, renewed);
                None
            }
            Some(new) => {
                let other = above(self.bounds(new), new);
                self.write(node.row, i, renewed);
                self.deal(node.row, other)
            }
        }
    }
}
