ghost use Rattle.std.specs.Prelude.{◌≡◌, ℕ, ◌<◌, length};
ghost use Rattle.cache_tests.specs.Waiting.{pixel};

use super::Pixel;

/// Lets the pixels take the ink.
pub(super) fn take(pixels: &mut [Pixel], ink: u8)
    ensures taken { (k : ℕ) → k < length pixels.old → (pixel pixels.new k).taken ≡ ink }
    ensures shown { (k : ℕ) → (pixel pixels.new k).shown ≡ (pixel pixels.old k).shown }
{
    for pixel in pixels {
        pixel.taken = ink;
    }
}

/// Lets the pixels show their taken inks.
pub(super) fn show(pixels: &mut [Pixel])
    ensures taken { (k : ℕ) → (pixel pixels.new k).taken ≡ (pixel pixels.old k).taken }
    ensures shown { (k : ℕ) → k < length pixels.old → (pixel pixels.new k).shown ≡ (pixel pixels.old k).taken }
{
    for pixel in pixels {
        pixel.shown = pixel.taken;
    }
}
