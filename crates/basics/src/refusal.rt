ghost use Rattle.std.specs.Prelude.{◌≡◌};
ghost use Rattle.basics.specs.Refusals.{number};

/// Why a call was refused. Each case has its number, which users of a panel know.
#[derive(Clone, Copy, PartialEq, Eq, Debug)]
pub enum Refusal {
    /// The sheet is blank.
    Blank = 1,
    /// The sheet is open already.
    Opened = 2,
    /// A side is outside 1 to 256.
    Sides = 3,
    /// A table has fewer than 256 rows.
    Rows = 4,
    /// The surface has another size.
    Size = 5,
    /// A shape's or a span's number is above 255.
    Number = 6,
    /// The number is used.
    Used = 7,
    /// The number is unused.
    Unused = 8,
    /// A side of a box is 0, or a glyph or an ink is above 15.
    Figures = 9,
    /// The bounding box leaves the sheet, or the surface has no such row.
    Outside = 10,
    /// A span names the shape.
    Named = 11,
    /// The first frame of a span is above the last.
    Frames = 12,
    /// The report has fewer than 256 entries.
    Report = 13,
    /// The tree stores 256 pairs.
    Full = 14,
    /// The pair is not stored.
    Missing = 15,
    /// The list has fewer than 256 entries.
    List = 16,
    /// A read or a run leaves the surface, a run is empty, or its ink is above 15.
    Surface = 30,
    /// The output has too few bytes.
    Room = 32,
}

impl From<Refusal> for u8 {
    ghost from_gives = { λ refusal n. n ≡ number refusal };

    /// The number of a refusal.
    fn from(refusal: Refusal) -> u8 {
        refusal as u8
    }
}
