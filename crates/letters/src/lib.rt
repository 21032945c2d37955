//! A surface's picture in characters, a row at a time.
#![tactic(auto)]

ghost use Rattle.std.specs.Prelude.{◌≡◌, ◌<◌, IfOk, string_bytes};
ghost use Rattle.letters.specs.Letters.{letter_of, row_text};

use std::alloc::{AllocError, Global};
use surface::surface::Surface;

/// The characters of the inks.
const LETTERS: &[u8; 16] = b".123456789abcdef";

/// An ink as a character: a point for 0, else its lowercase hexadecimal digit.
pub fn ink_letter(ink: u8) -> u8
    ensures value { result ≡ letter_of ink }
    ensures ascii { result < 128 }
{
    LETTERS[usize::from(ink % 16)]
}

/// Row y of a surface in characters, one for each pixel; nothing where it has no such row.
pub fn picture_row<S: Surface>(heap: Global, y: u16, surface: &S) -> Result<String, AllocError>
    ensures { IfOk result (λ s. string_bytes s ≡ row_text (S.Surface.view surface.now) y) }
{
    let (width, height) = surface.size();
    if y >= height {
        return Ok(String::new(heap));
    }
    (0..width)
        .filter_map(|x| surface.read(x, y).ok())
        .map(|ink| ink_letter(ink) as char)
        .collect(heap)
}
