ghost use Rattle.basics.specs.Sizes.{SizeOf};

use super::Size;
use crate::refusal::Refusal;

impl Size {
    /// The size with these sides; refuses with 3 if one is outside 1 to 256.
    pub fn new(width: u16, height: u16) -> Result<Size, Refusal>
        ensures { SizeOf width height result }
    {
        if width == 0 || width > 256 || height == 0 || height > 256 {
            return Err(Refusal::Sides);
        }
        Ok(Size { width, height })
    }
}
