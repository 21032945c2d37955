ghost use Rattle.std.specs.Prelude.{◌≡◌, ◌≤◌, [], ◌∷◌};
ghost use Rattle.basics.specs.Inks.{InkOf, ColourOf};

use super::Ink;
use crate::refusal::Refusal;

/// Red, green and blue.
#[derive(Clone, Copy)]
pub struct Colour {
    pub red: u8,
    pub green: u8,
    pub blue: u8,
}

impl TryFrom<u16> for Ink {
    type Error = Refusal;

    ghost try_from_gives = { InkOf };

    /// The ink of that number; refuses with 9 above 15.
    fn try_from(value: u16) -> Result<Ink, Refusal> {
        if value > 15 {
            return Err(Refusal::Figures);
        }
        Ok(Ink { value: value as u8 })
    }
}

impl From<Colour> for [u8; 3] {
    ghost from_gives = { λ colour parts. parts ≡ colour.red ∷ colour.green ∷ colour.blue ∷ [] };

    /// Its red, green and blue, in this order.
    fn from(colour: Colour) -> [u8; 3] {
        [colour.red, colour.green, colour.blue]
    }
}

impl From<u8> for Colour {
    ghost from_gives = { ColourOf };

    /// The colour of an ink, by its bits; of a larger number, that of its lowest four bits.
    fn from(ink: u8) -> Colour {
        let dim = 255 - 85 * (ink / 8 % 2);
        Colour {
            red: dim - 170 * (ink / 4 % 2),
            green: dim - 170 * (ink / 2 % 2),
            blue: dim - 170 * (ink % 2),
        }
    }
}
