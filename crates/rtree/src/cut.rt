//! Cutting a pair out of a tree.
ghost use Rattle.std.specs.Prelude.{◌≡◌, ℕ, ◌+◌, ◌<◌, ◌≤◌, true, false, None, length, slice_index};
ghost use Rattle.std.specs.List.{AllByRecursion};
ghost use Rattle.guttman.specs.Shape.{pairs, Filled};
ghost use Rattle.guttman.specs.Cutting.{cut as cut_of};
ghost use Rattle.node_rows.specs.Rows.{below, used};
ghost use Rattle.node_rows.specs.Nodes.{Off, Placed};
ghost use Rattle.node_rows.specs.Removal.{Dropped, Stayed, WasCut};
ghost use Rattle.rtree.specs.Loans.{SameLoan};
ghost use Rattle.rtree.specs.Tables.{rows_in};

use crate::node::{Node, above};
use crate::table::Table;
use crate::waiting::Waiting;
use extent::entry::Entry;
use extent::extent::{Extent, Measured};

impl<M: Measured + Copy> Table<'_, M> {
    /// After a pair was cut out below the entry at place i of the row `at`, whose node is `child`: with fewer than three entries that node
    /// is cut off, and else its entry has the join of its extents.
    fn settle(&mut self, at: u8, i: usize, child: Node, waiting: &mut Waiting<'_, M>)
        requires inside { i < slice_index self.old.counts at }
        requires placed { slice_index self.old.counts child.row < 3 → Placed (rows_in self.old) child.height child.row }
        requires off { slice_index self.old.counts child.row < 3 → Off at (used (rows_in self.old) child.height child.row) }
        requires room { waiting.old.many + length (pairs child.height (below (rows_in self.old) child.height child.row)) ≤ length waiting.old.pairs.now }
        ensures few { slice_index self.old.counts child.row < 3 → Dropped self.old.places.now self.old.counts self.new.places.now self.new.counts child.height child.row at i waiting.old.pairs.now waiting.old.many waiting.new.pairs.now waiting.new.many }
        ensures enough { 3 ≤ slice_index self.old.counts child.row → ((e : _) → Stayed self.old.places.now self.old.counts self.new.places.now self.new.counts M.Measured.measure M.Extent.joined child.row at i e) × (waiting.new.pairs.now ≡ waiting.old.pairs.now) × (waiting.new.many ≡ waiting.old.many) }
        ensures lent { SameLoan self.old.places self.new.places }
        ensures kept { SameLoan waiting.old.pairs waiting.new.pairs }
    {
        if self.counts[child.row as usize] < 3 {
            self.gather(child, waiting);
            self.take_out(at, i);
        } else {
            let extent = self.bounds(child.row);
            self.write(at, i, above(extent, child.row));
        }
    }

    // The answer is whether a pair was cut out, no value beside a flag: the pairs go to `waiting`, whichever node they come from.
    /// Cuts the first copy of a pair that a walk comes to out of the tree at a node, if there is one; the pairs of the nodes that were cut
    /// off then wait.
    pub(crate) fn cut(&mut self, node: Node, pair: &Entry<M>, waiting: &mut Waiting<'_, M>) -> bool
        requires placed { Placed (rows_in self.old) node.height node.row }
        requires filled { AllByRecursion (Filled node.height) (below (rows_in self.old) node.height node.row) }
        requires none { waiting.old.many ≡ 0 }
        requires room { length (pairs node.height (below (rows_in self.old) node.height node.row)) ≤ length waiting.old.pairs.now }
        ensures found { result ≡ true → WasCut self.old.places.now self.old.counts self.new.places.now self.new.counts M.Measured.measure M.Extent.joined M.Extent.covering pair.now.extent pair.now.code node.height node.row waiting.new.pairs.now waiting.new.many }
        ensures missing { result ≡ false → (cut_of M.Measured.measure M.Extent.joined M.Extent.covering pair.now.extent pair.now.code node.height (below (rows_in self.old) node.height node.row) ≡ None) × (self.new.places.now ≡ self.old.places.now) × (self.new.counts ≡ self.old.counts) × (waiting.new.many ≡ 0) }
        ensures lent { SameLoan self.old.places self.new.places }
        ensures kept { SameLoan waiting.old.pairs waiting.new.pairs }
    {
        if node.height == 0 {
            return self.cut_leaf(node.row, pair);
        }
        // By place: the calls below change the table that the row is read from.
        for i in 0..self.counts[node.row as usize] as usize {
            let item = self.entry(node.row, i);
            if item.extent.covers(&pair.extent) {
                let child = Node {
                    height: node.height - 1,
                    row: item.code as u8,
                };
                if self.cut(child, pair, waiting) {
                    self.settle(node.row, i, child, waiting);
                    return true;
                }
            }
        }
        false
    }
}
