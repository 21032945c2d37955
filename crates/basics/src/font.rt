ghost use Rattle.std.specs.Prelude.{◌≡◌, ℕ, ◌<◌, slice_index};
ghost use Rattle.basics.specs.Fonts.{built_in, lit};
ghost use Rattle.basics.specs.Segments.{masks, lights};

/// The built-in font: the row bytes of each glyph, 16 to a glyph, the leftmost column in the top bit.
const BUILT_IN: [u8; 256] = [
    0, 60, 66, 66, 66, 66, 66, 0, 66, 66, 66, 66, 66, 60, 0, 0, 0, 0, 2, 2, 2, 2, 2, 0, 2, 2, 2, 2,
    2, 0, 0, 0, 0, 60, 2, 2, 2, 2, 2, 60, 64, 64, 64, 64, 64, 60, 0, 0, 0, 60, 2, 2, 2, 2, 2, 60,
    2, 2, 2, 2, 2, 60, 0, 0, 0, 0, 66, 66, 66, 66, 66, 60, 2, 2, 2, 2, 2, 0, 0, 0, 0, 60, 64, 64,
    64, 64, 64, 60, 2, 2, 2, 2, 2, 60, 0, 0, 0, 60, 64, 64, 64, 64, 64, 60, 66, 66, 66, 66, 66, 60,
    0, 0, 0, 60, 2, 2, 2, 2, 2, 0, 2, 2, 2, 2, 2, 0, 0, 0, 0, 60, 66, 66, 66, 66, 66, 60, 66, 66,
    66, 66, 66, 60, 0, 0, 0, 60, 66, 66, 66, 66, 66, 60, 2, 2, 2, 2, 2, 60, 0, 0, 0, 0, 0, 0, 0, 0,
    0, 60, 0, 0, 0, 0, 0, 0, 0, 0, 0, 0, 0, 0, 0, 0, 0, 0, 0, 0, 0, 0, 0, 1, 1, 0, 0, 60, 64, 64,
    64, 64, 64, 60, 64, 64, 64, 64, 64, 60, 0, 0, 0, 60, 66, 66, 66, 66, 66, 60, 64, 64, 64, 64,
    64, 0, 0, 0, 0, 0, 64, 64, 64, 64, 64, 0, 64, 64, 64, 64, 64, 60, 0, 0, 0, 0, 66, 66, 66, 66,
    66, 0, 66, 66, 66, 66, 66, 60, 0, 0,
];

/// The row bytes of sixteen glyphs of 8 by 16 pixels.
#[derive(Clone, Copy)]
pub struct Font {
    pub rows: [u8; 256],
}

impl Font {
    /// The built-in font, in which seven segments and a point make up each glyph.
    pub fn built_in() -> Font
        ensures rows { result.rows ≡ built_in }
        ensures segments { (g i j : ℕ) → g < 16 → i < 8 → j < 16 → lit result.rows g i j ≡ lights (slice_index masks g) i j }
    {
        Font { rows: BUILT_IN }
    }

    /// Whether the font lights column i of row j of a glyph.
    pub fn lights(&self, glyph: u16, column: u16, row: u16) -> bool
        ensures { result ≡ lit self.now.rows glyph column row }
    {
        if glyph > 15 || column > 7 || row > 15 {
            return false;
        }
        let byte = self.rows[glyph as usize * 16 + row as usize];
        (byte >> (7 - column)) % 2 == 1
    }
}
