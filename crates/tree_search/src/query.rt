ghost use Rattle.std.specs.Prelude.{◌≡◌, Bool};
ghost use Rattle.guttman.specs.Finding.{Upward};

use extent::extent::Extent;

/// What is asked of each extent on the way: what covers an extent that passes passes too.
pub trait Query<E: Extent> {
    ghost passing: { Self → E → Bool };

    /// Whether the extent passes.
    fn passes(&self, extent: &E) -> bool
        ensures { result ≡ passing self.now extent.now };

    ghost upward: { (q : Self) → Upward E.Extent.covering (passing q) };
}

/// That it meets this extent.
#[derive(Drop)]
pub struct Meeting<'a, E>(pub &'a E);

/// That it holds this spot.
#[derive(Drop)]
pub struct Holding<'a, S>(pub &'a S);

impl<E: Extent> Query<E> for Meeting<'_, E> {
    ghost passing = { λ q x. E.Extent.meeting x q.0.now };

    ghost upward = { λ q c a. E.meets_more a q.0.now c };

    fn passes(&self, extent: &E) -> bool {
        extent.meets(self.0)
    }
}

impl<E: Extent> Query<E> for Holding<'_, E::Spot> {
    ghost passing = { λ q x. E.Extent.holding x q.0.now };

    ghost upward = { λ q c a. E.holds_more a c q.0.now };

    fn passes(&self, extent: &E) -> bool {
        extent.holds(self.0)
    }
}
