ghost use Rattle.std.specs.Prelude.{min, max, ◌&&◌, nat_le};
ghost use Rattle.extent.specs.Axis.{spans, touches, extent_of};
ghost use Rattle.std.proofs.Common.{rules};

use crate::extent::{Extent, Measured};

/// The frames from first to last.
#[derive(Clone, Copy, PartialEq, Eq)]
pub struct Interval {
    pub first: u16,
    pub last: u16,
}

impl Extent for Interval {
    type Spot = u16;

    ghost covering = { λ a b. spans a.first a.last b.first b.last };

    ghost meeting = { λ a b. touches a.first a.last b.first b.last };

    ghost joined = { λ a b. record { first = min a.first b.first; last = max a.last b.last } };

    ghost holding = { λ a s. nat_le a.first s && nat_le s a.last };

    ghost reflexive = { Prim.search rules };

    ghost transitive = { Prim.search rules };

    ghost antisymmetric = { Prim.search rules };

    ghost above_left = { Prim.search rules };

    ghost above_right = { Prim.search rules };

    ghost least = { Prim.search rules };

    ghost meets_more = { Prim.search rules };

    ghost holds_more = { Prim.search rules };

    fn covers(&self, other: &Interval) -> bool {
        self.first <= other.first && other.last <= self.last
    }

    fn meets(&self, other: &Interval) -> bool {
        self.first <= other.last && other.first <= self.last
    }

    fn join(&self, other: &Interval) -> Interval {
        Interval {
            first: self.first.min(other.first),
            last: self.last.max(other.last),
        }
    }

    fn holds(&self, spot: &u16) -> bool {
        self.first <= *spot && *spot <= self.last
    }
}

impl Measured for Interval {
    ghost measure = { λ a. extent_of a.first a.last };

    ghost growing = { Prim.search rules };

    fn size(&self) -> u32 {
        (u32::from(self.last) + 1).saturating_sub(self.first.into())
    }

    fn growth(&self, other: &Interval) -> u32 {
        self.join(other).size() - self.size()
    }
}
