//! Frames as Netpbm P6.
#![tactic(auto)]

mod writer;

ghost use Rattle.std.specs.Prelude.{◌≡◌, ◌≤◌, length, IfOk};
ghost use Rattle.ppm.specs.Frames.{head_bytes, ink_bytes, over};
ghost use Rattle.ppm.specs.Calls.{Headed, Rowed, Framed};

use raster::ink::colour::Colour;
use raster::refusal::Refusal;
use raster::size::Size;
use std::alloc::{AllocError, Global};
use surface::surface::Surface;
use writer::Writer;

/// The bytes that `head` asks of its output: as many as the longest head has.
const HEAD_ROOM: usize = 15;

/// As many bytes as the longest row has.
const ROW_ROOM: usize = 768;

/// Writes all that stands before the rows to the front of the output, and answers its length.
/// Refuses with 3 if a side is outside 1 to 256, then with 32 if the output has fewer than 15
/// bytes.
pub fn head(width: u16, height: u16, output: &mut [u8]) -> Result<usize, Refusal>
    ensures { Headed width height output.old result output.new }
{
    let size = Size::new(width, height)?;
    if output.len() < HEAD_ROOM {
        return Err(Refusal::Room);
    }
    Ok(put_head(size, output))
}

/// Writes row y of the surface, 3 bytes for each pixel, to the front of the output, and answers
/// their number. Refuses with 10 if the surface has no row y, then with 32 if the output has
/// fewer bytes.
pub fn row<S: Surface>(y: u16, surface: &S, output: &mut [u8]) -> Result<usize, Refusal>
    ensures { Rowed (S.Surface.view surface.now) y output.old result output.new }
{
    let (width, height) = surface.size();
    if y >= height {
        return Err(Refusal::Outside);
    }
    let bytes = 3 * width as usize;
    if output.len() < bytes {
        return Err(Refusal::Room);
    }
    for x in 0..width {
        // No read is refused: the pixel is on the surface.
        let colour = ink_colour(surface.read(x, y)?);
        // By place: tried with `chunks_exact_mut`, of which no contract can speak afterwards.
        let at = 3 * x as usize;
        output[at..at + 3].copy_from_slice(&colour);
    }
    Ok(bytes)
}

/// The red, the green and the blue of an ink.
#[tactic(auto, unfolding(crate::specs::Frames::ink_bytes))]
fn ink_colour(ink: u8) -> [u8; 3]
    ensures { result ≡ ink_bytes ink }
{
    Colour::from(ink).into()
}

/// Writes the head to the front of the output, and answers its length.
#[tactic(auto, using(crate::proofs::Numbers::digits_below_thousand))]
fn put_head(size: Size, output: &mut [u8]) -> usize
    requires { 15 ≤ length output.old }
    ensures answer { result ≡ length (head_bytes size.width size.height) }
    ensures after { output.new ≡ over output.old 0 (head_bytes size.width size.height) }
{
    let mut writer = Writer { output, end: 0 };
    writer.put(b"P6\n");
    writer.put_number(size.width);
    writer.put(b" ");
    writer.put_number(size.height);
    writer.put(b"\n255\n");
    writer.end
}

/// The whole frame of a surface; of a surface without pixels, nothing.
#[tactic(auto, using(crate::proofs::Heads::head_most))]
pub fn frame<S: Surface>(heap: Global, surface: &S) -> Result<Vec<u8>, AllocError>
    ensures { IfOk result (λ v. Framed (S.Surface.view surface.now) v.items) }
{
    let mut bytes = Vec::new(heap);
    let (width, height) = surface.size();
    let Ok(size) = Size::new(width, height) else {
        return Ok(bytes);
    };
    let mut start = [0u8; HEAD_ROOM];
    let length = put_head(size, &mut start);
    bytes.extend_from_slice(&start[..length])?;
    let mut part = [0u8; ROW_ROOM];
    for y in 0..height {
        let Ok(length) = row(y, surface, &mut part) else {
            unreachable!()
        };
        bytes.extend_from_slice(&part[..length])?;
    }
    Ok(bytes)
}
