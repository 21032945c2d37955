ghost use Rattle.std.specs.Prelude.{◌≡◌, ◌*◌, min, max, ◌&&◌, nat_le};
ghost use Rattle.extent.specs.Axis.{spans, touches, extent_of};
ghost use Rattle.extent.specs.Boxes.{IsPlaneBox};
ghost use Rattle.raster.specs.Shapes.{bounds_of};
ghost use Rattle.std.proofs.Common.{rules};
ghost use Rattle.extent.specs.AxisLemmas.{area_grows};

use crate::extent::{Extent, Measured};
use crate::interval::Interval;
use raster::shape::{Bounds, Shape};

/// A pixel of a sheet.
#[derive(Clone, Copy, PartialEq, Eq)]
pub struct Pixel {
    pub x: u16,
    pub y: u16,
}

/// The pixels from left to right and from top to bottom, all four edges included.
#[derive(Clone, Copy, PartialEq, Eq)]
pub struct PlaneBox {
    pub left: u8,
    pub top: u8,
    pub right: u8,
    pub bottom: u8,
}

impl PlaneBox {
    /// The columns from left to right.
    fn across(&self) -> Interval
        ensures { (result.first ≡ self.now.left) × (result.last ≡ self.now.right) }
    {
        Interval {
            first: self.left.into(),
            last: self.right.into(),
        }
    }

    /// The rows from top to bottom.
    fn down(&self) -> Interval
        ensures { (result.first ≡ self.now.top) × (result.last ≡ self.now.bottom) }
    {
        Interval {
            first: self.top.into(),
            last: self.bottom.into(),
        }
    }
}

impl Extent for PlaneBox {
    type Spot = Pixel;

    ghost covering = { λ a b. spans a.left a.right b.left b.right && spans a.top a.bottom b.top b.bottom };

    ghost meeting = { λ a b. touches a.left a.right b.left b.right && touches a.top a.bottom b.top b.bottom };

    ghost joined = { λ a b. record { left = min a.left b.left; top = min a.top b.top; right = max a.right b.right; bottom = max a.bottom b.bottom } };

    ghost holding = { λ a s. (nat_le a.left s.x && nat_le s.x a.right) && (nat_le a.top s.y && nat_le s.y a.bottom) };

    ghost reflexive = { Prim.search rules };

    ghost transitive = { Prim.search rules };

    ghost antisymmetric = { Prim.search rules };

    ghost above_left = { Prim.search rules };

    ghost above_right = { Prim.search rules };

    ghost least = { Prim.search rules };

    ghost meets_more = { Prim.search rules };

    ghost holds_more = { Prim.search rules };

    fn covers(&self, other: &PlaneBox) -> bool {
        self.across().covers(&other.across()) && self.down().covers(&other.down())
    }

    fn meets(&self, other: &PlaneBox) -> bool {
        self.across().meets(&other.across()) && self.down().meets(&other.down())
    }

    fn join(&self, other: &PlaneBox) -> PlaneBox {
        PlaneBox {
            left: self.left.min(other.left),
            top: self.top.min(other.top),
            right: self.right.max(other.right),
            bottom: self.bottom.max(other.bottom),
        }
    }

    fn holds(&self, spot: &Pixel) -> bool {
        self.across().holds(&spot.x) && self.down().holds(&spot.y)
    }
}

impl Measured for PlaneBox {
    ghost measure = { λ a. extent_of a.left a.right * extent_of a.top a.bottom };

    ghost growing = { λ a b. area_grows a.left a.right b.left b.right a.top a.bottom b.top b.bottom };

    fn size(&self) -> u32 {
        self.across().size() * self.down().size()
    }

    #[tactic(auto, using(crate::specs::AxisLemmas::area_grows))]
    fn growth(&self, other: &PlaneBox) -> u32 {
        self.join(other).size() - self.size()
    }
}

impl PlaneBox {
    /// The plane box of a box of pixels, if it has a pixel and lies within 256 columns and rows.
    // An `Option`, and no `TryFrom`: there is nothing to say of a box that does not become one.
    pub fn of_bounds(bounds: Bounds) -> Option<PlaneBox>
        ensures { IsPlaneBox bounds result }
    {
        if bounds.left >= bounds.right || bounds.top >= bounds.bottom {
            return None;
        }
        Some(PlaneBox {
            left: u8::try_from(bounds.left).ok()?,
            top: u8::try_from(bounds.top).ok()?,
            right: u8::try_from(bounds.right - 1).ok()?,
            bottom: u8::try_from(bounds.bottom - 1).ok()?,
        })
    }

    /// The bounding box of a shape, if it has a pixel and lies within 256 columns and rows.
    pub fn of_shape(shape: Shape) -> Option<PlaneBox>
        ensures { IsPlaneBox (bounds_of shape) result }
    {
        PlaneBox::of_bounds(shape.bounds())
    }
}
