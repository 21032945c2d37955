ghost use Rattle.std.specs.Prelude.{◌≡◌, ℕ, ◌+◌, ◌%◌, ◌<◌, ◌≤◌, ◌≢◌};
ghost use Rattle.std.specs.Option.{unwrap_or};
ghost use Rattle.handing.specs.Given.{Given, part_inks, spot_inks};

use crate::spot::Spot;
use crate::tile::Tile;
use surface::clip::run_clipped;
use surface::surface::Surface;

/// How many places from k on, along the row, have the ink of place k, or nothing as it has nothing.
fn same_run<T: Tile>(tile: &T, k: u8) -> u8
    ensures row { (0 < result) × (k % 16 + result ≤ 16) }
    ensures same { (j : ℕ) → k ≤ j → j < k + result → T.inks tile.now j ≡ T.inks tile.now k }
    ensures longest { k % 16 + result < 16 → T.inks tile.now (k + result) ≢ T.inks tile.now k }
{
    let room = 16 - k % 16;
    let here = tile.ink_at(k);
    (1..room)
        .find(|n| tile.ink_at(k + *n) != here)
        .unwrap_or(room)
}

/// Gives the places from k on that have one ink along the row to the surface, as one run. It answers the place after them,
/// if the tile has one.
fn hand_run<S: Surface, T: Tile>(surface: &mut S, tile: &T, spot: Spot, k: u8) -> Option<u8>
    ensures next { k < unwrap_or result 256 }
    ensures given { Given (part_inks (T.inks tile.now) spot k (unwrap_or result 256)) (S.Surface.view surface.old) (S.Surface.view surface.new) }
{
    let n = same_run(tile, k);
    if let Some(ink) = tile.ink_at(k) {
        let (x, y) = spot.pixel(k);
        run_clipped(surface, x as u32, y as u32, n as u32, ink);
    }
    k.checked_add(n)
}

/// Hands a tile at that spot down: its rows from the top, each in the longest runs of one ink from the left, cut off at the
/// edges of the surface. No run leaves the tile.
pub fn hand_down<S: Surface, T: Tile>(surface: &mut S, tile: &T, spot: Spot)
    ensures { Given (spot_inks (T.inks tile.now) spot) (S.Surface.view surface.old) (S.Surface.view surface.new) }
{
    let mut next = Some(0u8);
    while let Some(k) = next {
        next = hand_run(surface, tile, spot, k);
    }
}
