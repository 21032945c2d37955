ghost use Rattle.std.specs.Prelude.{◌≡◌};
ghost use Rattle.node_rows.specs.Rows.{row};

use extent::entry::Entry;

/// Rows of entries: row r has the eight places from place 8 · r on, of which it uses as many as its count says.
// Two lists beside each other: the places are lent entries, and a count has no place in one. No `Table` of `rtree`: this one lends
// only to be read, whatever the lists hold.
#[derive(Drop)]
pub struct View<'a, 'b, E> {
    pub places: &'a [Entry<E>],
    pub counts: &'b [u8],
}

impl<'a, E> View<'a, '_, E> {
    /// The entries of a row; none past the end of the places or of the counts.
    pub fn entries(&self, at: usize) -> &'a [Entry<E>]
        ensures { result.now ≡ row self.now.places.now self.now.counts.now at }
    {
        if at >= self.counts.len() || at > self.places.len() / 8 {
            return &self.places[0..0];
        }
        let rest = &self.places[8 * at..];
        let count = (self.counts[at] as usize).min(rest.len());
        &rest[0..count]
    }
}
