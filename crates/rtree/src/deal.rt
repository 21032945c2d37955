//! Adding an entry to one row, which is split where it is full.
ghost use Rattle.std.specs.Prelude.{◌≡◌, ℕ, ◌<◌, length, ◌≢◌, slice_index};
ghost use Rattle.node_rows.specs.Nodes.{spare, Laid, Scattered, Dealt};
ghost use Rattle.rtree.specs.Loans.{SameLoan};

use crate::table::Table;
use extent::entry::Entry;
use extent::extent::Measured;
use split::split::split;

impl<M: Copy> Table<'_, M> {
    /// Adds an entry to the row `at` or, if its letter is not A, to the row `to`.
    fn lay(&mut self, at: u8, to: u8, letter: u8, x: Entry<M>)
        requires other { to ≢ at }
        requires room { slice_index self.old.counts at < 8 }
        requires space { slice_index self.old.counts to < 8 }
        ensures laid { Laid self.old.places.now self.old.counts self.new.places.now self.new.counts at to letter x }
        ensures lent { SameLoan self.old.places self.new.places }
    {
        // A byte and no enum: the split answers its letters so (docs/RULES.md, "Sharing out nine entries").
        if letter == b'A' {
            self.push(at, x);
        } else {
            self.push(to, x);
        }
    }

    /// Shares out the eight entries that stand at the row `at`, by their letters.
    fn scatter(&mut self, at: u8, to: u8, letters: &[u8; 9])
        requires other { to ≢ at }
        requires none { slice_index self.old.counts at ≡ 0 }
        requires free { slice_index self.old.counts to ≡ 0 }
        ensures scattered { Scattered self.old.places.now self.old.counts self.new.places.now self.new.counts at to 8 letters.now }
        ensures lent { SameLoan self.old.places self.new.places }
    {
        for (i, letter) in letters[..8].iter().enumerate() {
            let x = self.entry(at, i);
            self.lay(at, to, *letter, x);
        }
    }
}

impl<M: Measured + Copy> Table<'_, M> {
    /// Adds an entry to a row; where the row is split, the new row is the answer.
    pub(crate) fn deal(&mut self, at: u8, extra: Entry<M>) -> Option<u8>
        requires { 0 < spare self.old.counts }
        ensures dealt { Dealt self.old.places.now self.old.counts self.new.places.now self.new.counts M.Measured.measure M.Extent.joined at result extra }
        ensures lent { SameLoan self.old.places self.new.places }
    {
        if self.counts[at as usize] < 8 {
            self.push(at, extra);
            return None;
        }
        let letters = split(self.row(at), extra.extent);
        let to = self.fresh();
        self.counts[at as usize] = 0;
        self.scatter(at, to, &letters);
        self.lay(at, to, letters[8], extra);
        Some(to)
    }
}
