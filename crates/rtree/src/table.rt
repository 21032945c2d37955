//! Rows that are all there, in lent memory.
ghost use Rattle.std.specs.Prelude.{◌≡◌, ℕ, ◌≤◌, length, slice_index};

use extent::entry::Entry;

/// 256 rows of eight places each: row r has those from place 8 r on, and uses as many of them as its count says. An entry names the row of
/// its node by number, not by a `Box`: the memory is lent, and there is no heap. Each call that writes ensures that it has the same places
/// on loan, since no field can speak of the value before a call.
// Two lists beside each other: the caller lends entries, and a count has no place in one. The contracts name both, before and after a call,
// since the relations of `node_rows` are about lists and know no struct of the code.
#[derive(Drop)]
pub(crate) struct Table<'a, M> {
    pub(crate) places: &'a mut [Entry<M>],
    pub(crate) counts: [u8; 256],
    ghost long: { 2048 ≤ length places.now },
    ghost wide: { length counts ≡ 256 },
    ghost within: { (q : ℕ) → slice_index counts q ≤ 8 },
}
