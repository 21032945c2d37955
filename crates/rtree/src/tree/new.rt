ghost use Rattle.std.specs.Prelude.{◌≡◌};
ghost use Rattle.rtree.specs.Held.{Empty};

use super::Tree;
use crate::node::Node;
use crate::rows::Rows;
use extent::entry::Entry;
use extent::extent::Extent;

impl<'a, E: Extent + Copy> Tree<'a, E> {
    /// A tree that stores no pair, over these places. It leaves them as they are.
    pub fn new(places: &'a mut [Entry<E>]) -> Tree<'a, E>
        ensures empty { Empty places.old result }
        ensures lent { result.rows.places.ghost_name ≡ places.entry.ghost_name }
    {
        Tree {
            rows: Rows::new(places),
            root: Node { height: 0, row: 0 },
            stored: 0,
        }
    }
}
