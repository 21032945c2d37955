//! The laws of trees, for every measured kind of extents, as the contract of one function.
#![tactic(auto)]

ghost use Rattle.std.specs.Prelude.{◌≡◌};
ghost use Rattle.tree_laws.specs.All.{TreeLaws};

use extent::extent::{Extent, Measured};

/// How many laws of trees there are. That each of them holds for the kind is what the contract says.
pub fn tree_laws<M: Measured>() -> usize
    ensures laws { TreeLaws M.Measured.measure M.Extent.joined M.Extent.covering }
    ensures count { result ≡ 8 }
{
    8
}
