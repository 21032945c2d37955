ghost use Rattle.std.specs.Prelude.{◌≡◌};
ghost use Rattle.quadratic.specs.Split.{sizes as sizes_lem, join_sizes_lem, growths as growths_lem};
ghost use Rattle.split.specs.Nine.{extent_at, join_row_lem};
ghost use Rattle.split.specs.Table.{table};

use extent::entry::Entry;
use extent::extent::Measured;
use std::array;

/// The extents of nine entries: the row's, and the last in each place after them.
#[derive(Clone, Copy)]
pub(crate) struct Nine<'a, M> {
    pub(crate) row: &'a [Entry<M>],
    pub(crate) last: M,
}

impl<M: Measured + Copy> Nine<'_, M> {
    /// The extent at place i.
    pub(crate) fn nth(&self, i: usize) -> M
        ensures { result ≡ extent_at self.now i }
    {
        match self.row.get(i) {
            Some(entry) => entry.extent,
            None => self.last,
        }
    }

    /// The sizes of the nine.
    pub(crate) fn sizes(&self) -> [u32; 9]
        ensures { result ≡ sizes_lem M.Measured.measure M.Extent.joined (extent_at self.now) }
    {
        array::from_fn(|i| self.nth(i).size())
    }

    /// The sizes of the joins of the extent at place i with each of the nine.
    fn join_row(&self, i: usize) -> [u32; 9]
        ensures { result ≡ join_row_lem M.Measured.measure M.Extent.joined (extent_at self.now) i }
    {
        let extent = self.nth(i);
        array::from_fn(|j| extent.join(&self.nth(j)).size())
    }

    /// The sizes of the joins of any two, that of i and j in row i at place j.
    pub(crate) fn join_sizes(&self) -> [[u32; 9]; 9]
        ensures { table result ≡ join_sizes_lem M.Measured.measure M.Extent.joined (extent_at self.now) }
    {
        array::from_fn(
            |i| -> [u32; 9]
                ensures { result ≡ join_row_lem M.Measured.measure M.Extent.joined (extent_at self.entry.now) i }
            { self.join_row(i) },
        )
    }

    /// By how much an extent grows with each of the nine.
    pub(crate) fn growths(&self, of: &M) -> [u32; 9]
        ensures { result ≡ growths_lem M.Measured.measure M.Extent.joined (extent_at self.now) of.now }
    {
        array::from_fn(|i| of.growth(&self.nth(i)))
    }
}
