ghost use Rattle.std.specs.Prelude.{◌≤◌};

pub mod colour;

/// An ink, 0 to 15; 0 is paper.
#[derive(Clone, Copy, PartialEq, Eq)]
pub struct Ink {
    pub value: u8,
    ghost small: { value ≤ 15 },
}
