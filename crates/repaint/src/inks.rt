ghost use Rattle.std.specs.Prelude.{ℕ, ◌≤◌, slice_index};

pub mod places;

/// The inks of 256 numbers: of the shapes by their numbers, or of a tile by its places, row by row.
#[derive(Clone, Copy)]
pub struct Inks {
    // Numbers and no `Ink`, since the contracts read them as numbers, here and where a tile is handed down.
    values: [u8; 256],
    ghost small: { (k : ℕ) → slice_index values k ≤ 15 },
}
