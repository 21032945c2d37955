ghost use Rattle.std.specs.Prelude.{◌≡◌};
ghost use Rattle.basics.specs.Sizes.{across, tile_of};

/// How many tiles stand side by side on a sheet of that width.
pub fn columns(width: u16) -> u32
    ensures { result ≡ across width }
{
    u32::from(width).div_ceil(16)
}

/// The number of the tile in which the pixel (x, y) lies, on a sheet of that width.
pub fn tile_number(width: u16, x: u16, y: u16) -> u32
    ensures { result ≡ tile_of width x y }
{
    y as u32 / 16 * columns(width) + x as u32 / 16
}
