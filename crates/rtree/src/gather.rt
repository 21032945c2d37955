//! Taking down the pairs of a node that is cut off.
ghost use Rattle.std.specs.Prelude.{◌≡◌, ℕ, ◌+◌, ◌<◌, ◌≤◌, length};
ghost use Rattle.guttman.specs.Shape.{pairs};
ghost use Rattle.node_rows.specs.Rows.{below, used};
ghost use Rattle.node_rows.specs.Nodes.{Placed};
ghost use Rattle.node_rows.specs.Removal.{Freed, Gathered};
ghost use Rattle.rtree.specs.Loans.{SameLoan};
ghost use Rattle.rtree.specs.Tables.{rows_in};

use crate::node::Node;
use crate::table::Table;
use crate::waiting::Waiting;

impl<M: Copy> Table<'_, M> {
    /// Takes the pairs of the tree at a node down, behind those that wait, and gives its rows up.
    pub(crate) fn gather(&mut self, node: Node, waiting: &mut Waiting<'_, M>)
        requires placed { Placed (rows_in self.old) node.height node.row }
        requires room { waiting.old.many + length (pairs node.height (below (rows_in self.old) node.height node.row)) ≤ length waiting.old.pairs.now }
        ensures same { self.new.places.now ≡ self.old.places.now }
        ensures freed { Freed self.old.counts self.new.counts (used (rows_in self.old) node.height node.row) }
        ensures gathered { Gathered waiting.old.pairs.now waiting.old.many waiting.new.pairs.now waiting.new.many (pairs node.height (below (rows_in self.old) node.height node.row)) }
        ensures lent { SameLoan self.old.places self.new.places }
        ensures kept { SameLoan waiting.old.pairs waiting.new.pairs }
    {
        // By place: the calls below change the table that the row is read from.
        for i in 0..self.counts[node.row as usize] as usize {
            let item = self.entry(node.row, i);
            if node.height == 0 {
                waiting.push(item);
            } else {
                let child = Node {
                    height: node.height - 1,
                    row: item.code as u8,
                };
                self.gather(child, waiting);
            }
        }
        self.counts[node.row as usize] = 0;
    }
}
