ghost use Rattle.std.specs.Prelude.{◌≡◌};

/// The words that a line may begin with.
#[derive(Clone, Copy)]
pub(crate) enum Word {
    Sheet,
    Box,
    Line,
    Figure,
    Span,
    Frame,
}

impl Word {
    ghost use Rattle.listing.specs.Words.{spelled};

    pub(crate) const ALL: [Word; 6] = [
        Word::Sheet,
        Word::Box,
        Word::Line,
        Word::Figure,
        Word::Span,
        Word::Frame,
    ];

    /// How the word is spelled.
    pub(crate) fn spelling(self) -> &'static [u8]
        ensures { result.now ≡ spelled self }
    {
        match self {
            Word::Sheet => b"sheet",
            Word::Box => b"box",
            Word::Line => b"line",
            Word::Figure => b"figure",
            Word::Span => b"span",
            Word::Frame => b"frame",
        }
    }
}
