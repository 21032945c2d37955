ghost use Rattle.std.specs.Prelude.{◌≤◌, length};

mod inks;
pub mod surfaces;

/// A pixel: the ink that it took, and the one that it shows.
#[derive(Clone, Copy)]
pub struct Pixel {
    pub taken: u8,
    pub shown: u8,
}

/// A surface of one row that shows no new ink before it is settled. Its pixels are lent, so that the lender can look at them
/// once the surface is gone.
#[derive(Drop)]
pub struct Waiting<'a> {
    pub pixels: &'a mut [Pixel],
    ghost narrow: { length pixels.now ≤ 256 },
}
