ghost use Rattle.std.specs.Prelude.{◌≡◌, ◌+◌, ◌≤◌, min, [], ◌∷◌, length};
ghost use Rattle.std.proofs.lemmas.List.Edits.{sets};
ghost use Rattle.node_rows.specs.Walks.{codes_below};

use crate::query::Query;
use crate::view::View;
use extent::extent::Extent;

/// A list, and how many of its places are written, from the first one on.
// The memory is lent, and there is no heap for a `Vec`. `Waiting` in `rtree` also counts what is written of lent memory, but it holds whole
// pairs, and where it is full nothing may be pushed; here a code that finds no place is dropped.
#[derive(Drop)]
struct Found<'a> {
    list: &'a mut [u16],
    count: usize,
    ghost within: { count ≤ length list.now },
}

impl Found<'_> {
    /// Writes a code at the next place, if there is one.
    fn push(&mut self, code: u16)
        ensures count { self.new.count ≡ min (self.old.count + 1) (length self.old.list.now) }
        ensures wrote { self.new.list.now ≡ sets self.old.list.now self.old.count (code ∷ []) }
        ensures lent { self.new.list.ghost_name ≡ self.old.list.ghost_name }
    {
        if self.count < self.list.len() {
            self.list[self.count] = code;
            self.count += 1;
        }
    }
}

impl<E: Extent> View<'_, '_, E> {
    // A height and a row that travel together, but no `Node` of `rtree`, whose row is a byte: here it may be any number, also one past the
    // rows.
    /// Writes the codes of what passes from a row on.
    fn walk<Q: Query<E>>(&self, height: usize, at: usize, query: &Q, found: &mut Found<'_>)
        ensures count { found.new.count ≡ min (found.old.count + length (codes_below (Q.Query.passing query.now) self.now.places.now self.now.counts.now height at)) (length found.old.list.now) }
        ensures wrote { found.new.list.now ≡ sets found.old.list.now found.old.count (codes_below (Q.Query.passing query.now) self.now.places.now self.now.counts.now height at) }
        ensures lent { found.new.list.ghost_name ≡ found.old.list.ghost_name }
    {
        for item in self.entries(at) {
            if query.passes(&item.extent) {
                if height == 0 {
                    found.push(item.code);
                } else {
                    self.walk(height - 1, item.code as usize, query, found);
                }
            }
        }
    }

    /// Writes the codes of the pairs whose extents pass the query, as the walk over the tree of this height at a row comes to them, from
    /// the list's first place on as far as it goes, and answers how many.
    pub fn look_up<Q: Query<E>>(
        &self,
        height: usize,
        at: usize,
        query: &Q,
        list: &mut [u16],
    ) -> usize
        ensures count { result ≡ min (length (codes_below (Q.Query.passing query.now) self.now.places.now self.now.counts.now height at)) (length list.old) }
        ensures wrote { list.new ≡ sets list.old 0 (codes_below (Q.Query.passing query.now) self.now.places.now self.now.counts.now height at) }
    {
        let mut found = Found { list, count: 0 };
        self.walk(height, at, query, &mut found);
        found.count
    }
}
