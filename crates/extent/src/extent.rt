ghost use Rattle.std.specs.Prelude.{◌≡◌, ℕ, ◌+◌, ◌≤◌, Bool, true};

/// A kind of extent: when one covers another, when two meet, their join, and the spots that one holds.
pub trait Extent: Sized {
    type Spot;

    ghost covering: { Self → Self → Bool };

    ghost meeting: { Self → Self → Bool };

    ghost joined: { Self → Self → Self };

    ghost holding: { Self → Self.Spot → Bool };

    /// Whether it covers another.
    fn covers(&self, other: &Self) -> bool
        ensures { result ≡ covering self.now other.now };

    /// Whether it meets another.
    fn meets(&self, other: &Self) -> bool
        ensures { result ≡ meeting self.now other.now };

    /// The least extent that covers both.
    fn join(&self, other: &Self) -> Self
        ensures { result ≡ joined self.now other.now };

    /// Whether it holds a spot.
    fn holds(&self, spot: &Self::Spot) -> bool
        ensures { result ≡ holding self.now spot.now };

    ghost reflexive: { (a : Self) → covering a a ≡ true };

    ghost transitive: { (a b c : Self) → covering a b ≡ true → covering b c ≡ true → covering a c ≡ true };

    ghost antisymmetric: { (a b : Self) → covering a b ≡ true → covering b a ≡ true → a ≡ b };

    ghost above_left: { (a b : Self) → covering (joined a b) a ≡ true };

    ghost above_right: { (a b : Self) → covering (joined a b) b ≡ true };

    ghost least: { (a b c : Self) → covering c a ≡ true → covering c b ≡ true → covering c (joined a b) ≡ true };

    ghost meets_more: { (a b c : Self) → covering c a ≡ true → meeting a b ≡ true → meeting c b ≡ true };

    ghost holds_more: { (a c : Self) (s : Self.Spot) → covering c a ≡ true → holding a s ≡ true → holding c s ≡ true };
}

/// An extent that also has a size.
pub trait Measured: Extent {
    ghost measure: { Self → ℕ };

    /// How many spots it holds, at most 65,536.
    fn size(&self) -> u32
        ensures value { result ≡ measure self.now }
        ensures bound { result ≤ 65536 };

    /// By how much its join with another is larger.
    // Each kind writes this: a provided body would let the join go, and not every kind is `Drop`.
    fn growth(&self, other: &Self) -> u32
        ensures { result + measure self.now ≡ measure (Self.Extent.joined self.now other.now) };

    ghost growing: { (a b : Self) → measure a ≤ measure (Self.Extent.joined a b) };
}
