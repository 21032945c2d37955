ghost use Rattle.rtree.specs.Looking.{LookUp};

use super::Tree;
use crate::rows::PLACES;
use extent::extent::Extent;
use raster::refusal::Refusal;
use tree_search::query::{Holding, Meeting, Query};

/// The entries that a list has to have.
const ENTRIES: usize = 256;

impl<E: Extent> Tree<'_, E> {
    // No list is made and handed out: by docs/RULES.md, "Trees", find and at write into a lent list and answer the count.
    /// Writes the codes of all pairs whose extent passes the query to the list, each as often as it is stored, and answers how many. Over
    /// fewer than 256 rows, and then where the list has fewer than 256 entries, it is refused and the list stays.
    fn look_up<Q: Query<E>>(&self, query: &Q, list: &mut [u16]) -> Result<usize, Refusal>
        ensures { LookUp E.Extent.covering (Q.Query.passing query.now) self.now list.old result list.new }
    {
        if self.rows.len() < PLACES {
            return Err(Refusal::Rows);
        }
        if list.len() < ENTRIES {
            return Err(Refusal::List);
        }
        Ok(self.rows.look_up(self.root, query, list))
    }

    /// Writes the codes of all pairs whose extent meets this one to the list, each as often as it is stored, and answers how many. Over
    /// fewer than 256 rows, and then where the list has fewer than 256 entries, it is refused and the list stays.
    pub fn find(&self, extent: &E, list: &mut [u16]) -> Result<usize, Refusal>
        ensures { LookUp E.Extent.covering (λ x. E.Extent.meeting x extent.now) self.now list.old result list.new }
    {
        self.look_up(&Meeting(extent), list)
    }

    /// The same for all pairs whose extent holds this spot.
    pub fn at(&self, spot: &E::Spot, list: &mut [u16]) -> Result<usize, Refusal>
        ensures { LookUp E.Extent.covering (λ x. E.Extent.holding x spot.now) self.now list.old result list.new }
    {
        self.look_up(&Holding(spot), list)
    }
}
