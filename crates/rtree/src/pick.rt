//! The choices in one node: which entry takes an extent in, and the join of them all.
ghost use Rattle.std.specs.Prelude.{◌≡◌, ◌<◌, length};
ghost use Rattle.quadratic.specs.Split.{growth as growth_of};
ghost use Rattle.guttman.specs.Trees.{bound as join_of, choose as choice_of};
ghost use Rattle.node_rows.specs.Nodes.{extents_in};

use extent::entry::Entry;
use extent::extent::{Extent, Measured};

/// By what a choice goes: how much x grows when it takes e in, and its size.
#[tactic(auto, unfolding(quadratic::specs::Split::growth))]
fn weight<M: Measured + Copy>(e: M, x: M) -> (u32, u32)
    ensures { result ≡ (growth_of M.Measured.measure M.Extent.joined x e, M.Measured.measure x) }
{
    (x.growth(&e), x.size())
}

/// The entry of a row that takes e in: that of the least weight, and of equals the first.
pub(crate) fn choose<M: Measured + Copy>(row: &[Entry<M>], e: M) -> usize
    requires { 0 < length row.now }
    ensures is { result ≡ choice_of M.Measured.measure M.Extent.joined (extents_in row.now) e }
    ensures below { result < length row.now }
{
    let best = row
        .iter()
        .enumerate()
        .min_by_key(|(_, entry)| weight(e, entry.extent));
    match best {
        Some((i, _)) => i,
        None => unreachable!(),
    }
}

/// The join of the extents of a row.
pub(crate) fn bound<M: Measured + Copy>(row: &[Entry<M>]) -> M
    requires { 0 < length row.now }
    ensures { (d : _) → result ≡ join_of M.Measured.measure M.Extent.joined d (extents_in row.now) }
{
    let rest = row[1..].iter();
    rest.fold(row[0].extent, |all, entry| all.join(&entry.extent))
}
