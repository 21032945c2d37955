ghost use Rattle.std.specs.Prelude.{◌*◌, ◌≤◌, length};

mod memory;
pub mod panel;

/// The lent bytes of a byte surface.
// Apart from it, since a struct with an invariant cannot lend on what its own `&mut` refers to (docs/DECISIONS.md, "The byte
// surface in two structs"); those of the plane surface are written another way.
#[derive(Drop)]
pub struct Pixels<'a> {
    memory: &'a mut [u8],
}

/// A surface in lent memory: one byte for each pixel, row by row. It shows every ink at once.
// Sides of 0 and no `Option<Size>`: making it may not fail, and every surface answers its two sides.
#[derive(Drop)]
pub struct ByteSurface<'a> {
    pixels: Pixels<'a>,
    width: u16,
    height: u16,
    ghost narrow: { width ≤ 256 },
    ghost low: { height ≤ 256 },
    ghost room: { width * height ≤ length pixels.memory.now },
}
