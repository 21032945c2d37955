//! Pairs that wait to be inserted again.
ghost use Rattle.std.specs.Prelude.{◌≡◌, ◌+◌, ◌<◌, length, slice_set};
ghost use Rattle.rtree.specs.Loans.{SameLoan};

use extent::entry::Entry;

/// Lent memory, in whose first places so many pairs wait to be inserted again.
// The memory is lent, and there is no heap for a `Vec`. `Found` in `tree_search` also counts what is written of a lent list, but it holds
// codes, and where it is full it drops what comes; here there has to be room.
#[derive(Drop)]
pub(crate) struct Waiting<'a, M> {
    pub(crate) pairs: &'a mut [Entry<M>],
    pub(crate) many: usize,
}

impl<M: Copy> Waiting<'_, M> {
    /// Writes a pair behind those that wait.
    pub(crate) fn push(&mut self, pair: Entry<M>)
        requires { self.old.many < length self.old.pairs.now }
        ensures wrote { self.new.pairs.now ≡ slice_set self.old.pairs.now self.old.many pair }
        ensures counted { self.new.many ≡ self.old.many + 1 }
        ensures lent { SameLoan self.old.pairs self.new.pairs }
    {
        self.pairs[self.many] = pair;
        self.many += 1;
    }
}
