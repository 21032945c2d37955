ghost use Rattle.basics.specs.Glyphs.{GlyphOf};

/// The glyph code of a character; every other character has none.
pub fn glyph_code(c: char) -> Option<u16>
    ensures { GlyphOf c result }
{
    match c {
        '0'..='9' => Some((c as u32 - '0' as u32) as u16),
        '-' => Some(10),
        '.' => Some(11),
        'E' => Some(12),
        'P' => Some(13),
        'L' => Some(14),
        'U' => Some(15),
        _ => None,
    }
}
