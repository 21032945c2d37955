ghost use Rattle.std.specs.Prelude.{◌≡◌};
ghost use Rattle.quadratic.specs.Split.{split9};
ghost use Rattle.quadratic.specs.Sharing.{ByTheRule, RestToOne, SharedOut};
ghost use Rattle.split.specs.Nine.{nine};

use crate::choose::pick_seeds;
use crate::nine::Nine;
use crate::sharing::Sharing;
use extent::entry::Entry;
use extent::extent::Measured;

// Bytes and no `Letter`: the answer is so by docs/RULES.md, "Sharing out nine entries".
/// The letters of nine entries, by Guttman's quadratic split: of the row's, and in each place after them of one with the extent `last`.
pub fn split<M: Measured + Copy>(row: &[Entry<M>], last: M) -> [u8; 9]
    ensures letters { result ≡ split9 M.Measured.measure M.Extent.joined (nine row.now last) }
    ensures fair { SharedOut result }
    ensures rule { ByTheRule M.Measured.measure M.Extent.joined (nine row.now last) }
    ensures rest { RestToOne M.Measured.measure M.Extent.joined (nine row.now last) result }
{
    let nine = Nine { row, last };
    let seeds = pick_seeds(nine.sizes(), nine.join_sizes());
    let mut so_far = Sharing::start(&nine, seeds);
    for _ in 0..7u8 {
        so_far = so_far.share_one(&nine);
    }
    // Each of the nine has a letter by now.
    so_far.letters.map(|letter| letter.map_or(0, u8::from))
}
