ghost use Rattle.std.specs.Prelude.{◌≡◌};
ghost use Rattle.split.specs.Letters.{code_of};

/// The letter of an entry: which of the two groups it goes to.
#[derive(Clone, Copy, PartialEq, Eq, Debug)]
pub enum Letter {
    A,
    B,
}

impl From<Letter> for u8 {
    ghost from_gives = { λ letter byte. byte ≡ code_of letter };

    fn from(letter: Letter) -> u8 {
        match letter {
            Letter::A => b'A',
            Letter::B => b'B',
        }
    }
}
