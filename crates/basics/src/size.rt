ghost use Rattle.std.specs.Prelude.{◌≤◌};

pub mod sides;

/// The sides of a sheet, each 1 to 256 pixels.
#[derive(Clone, Copy)]
pub struct Size {
    pub width: u16,
    pub height: u16,
    ghost wide: { (1 ≤ width) × (width ≤ 256) },
    ghost high: { (1 ≤ height) × (height ≤ 256) },
}
