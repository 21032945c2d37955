ghost use Rattle.std.specs.Prelude.{◌≡◌, ◌+◌, ◌<◌};

use extent::extent::Measured;

/// One of the two groups: its extent, and how many entries it has.
#[derive(Clone, Copy)]
pub(crate) struct Group<M> {
    pub(crate) extent: M,
    pub(crate) count: u8,
}

impl<M: Measured + Copy> Group<M> {
    /// The group of one entry.
    pub(crate) fn one(extent: M) -> Self
        ensures extent { result.extent ≡ extent }
        ensures count { result.count ≡ 1 }
    {
        Group { extent, count: 1 }
    }

    /// The group with one entry more.
    pub(crate) fn with(self, extent: &M) -> Self
        requires { self.count < 255 }
        ensures extent { result.extent ≡ M.Extent.joined self.extent extent.now }
        ensures count { result.count ≡ self.count + 1 }
    {
        Group {
            extent: self.extent.join(extent),
            count: self.count + 1,
        }
    }
}
