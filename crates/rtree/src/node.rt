//! A node of the tree in rows.
ghost use Rattle.std.specs.Prelude.{◌≡◌};

use extent::entry::Entry;

/// How many levels of nodes stand below a node, and the row that it lies in.
// That it stands in a table (`Placed`) is no ghost field here: it is a fact of both, which each write to the table makes anew.
#[derive(Clone, Copy)]
pub(crate) struct Node {
    pub(crate) height: usize,
    pub(crate) row: u8,
}

/// The entry for a node in a row.
pub(crate) fn above<M>(extent: M, row: u8) -> Entry<M>
    ensures { result ≡ record { extent = extent; code = row } }
{
    Entry {
        extent,
        code: row as u16,
    }
}
