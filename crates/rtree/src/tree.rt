ghost use Rattle.std.specs.Prelude.{◌≡◌, ℕ, ◌≤◌, length, slice_index};
ghost use Rattle.guttman.specs.Shape.{least_root};
ghost use Rattle.node_rows.specs.Rows.{row};
ghost use Rattle.node_rows.specs.Nodes.{Standing};

use crate::node::Node;
use crate::rows::Rows;

pub mod find;
pub mod insert;
pub mod new;
pub mod read;

/// A tree of pairs of an extent and a code, in rows that the caller lends. Over fewer than 256 rows it refuses every pair.
#[derive(Drop)]
pub struct Tree<'a, E> {
    rows: Rows<'a, E>,
    root: Node,
    stored: usize,
    ghost wide: { length rows.counts ≡ 256 },
    ghost within: { (q : ℕ) → slice_index rows.counts q ≤ 8 },
    ghost standing: { ∥ Standing least_root (row rows.places.now rows.counts) root.height root.row stored ∥₁ },
}
