ghost use Rattle.std.specs.Prelude.{◌≡◌};
ghost use Rattle.node_rows.specs.Rows.{row as row_of};

use super::Tree;
use extent::entry::Entry;

impl<E> Tree<'_, E> {
    /// How many levels of nodes stand above the leaves.
    pub fn height(&self) -> usize
        ensures { result ≡ self.now.root.height }
    {
        self.root.height
    }

    /// The row of the root.
    pub fn root(&self) -> usize
        ensures { result ≡ self.now.root.row }
    {
        self.root.row as usize
    }

    /// The entries of a row, in a leaf pairs and above that children with their rows; none where the row is free.
    pub fn row(&self, at: usize) -> &[Entry<E>]
        ensures { result.now ≡ row_of self.now.rows.places.now self.now.rows.counts at }
    {
        self.rows.row(at)
    }
}
