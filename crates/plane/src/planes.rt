ghost use Rattle.std.specs.Prelude.{◌*◌, ◌≤◌, length};
ghost use Rattle.plane.specs.Layout.{plane_bytes_lem, SpareClear};

mod memory;
pub mod panel;

/// The lent bytes of a plane surface.
#[derive(Drop)]
pub struct Planes<'a> {
    memory: &'a mut [u8],
}

/// A surface in lent memory: four planes of bits, one after the other, of the weights 1, 2, 4 and 8. A row of a plane
/// has whole bytes, and the leftmost pixel the top bit. It shows every ink at once.
// Sides of 0 and no `Option<Size>`, and the lent bytes apart, both as in the byte surface; what a side needs of memory is counted
// another way, so `new` and `holds` stand here once more.
#[derive(Drop)]
pub struct PlaneSurface<'a> {
    planes: Planes<'a>,
    width: u16,
    height: u16,
    ghost narrow: { width ≤ 256 },
    ghost low: { height ≤ 256 },
    ghost room: { 4 * plane_bytes_lem width height ≤ length planes.memory.now },
    ghost spare: { SpareClear width height planes.memory.now },
}
