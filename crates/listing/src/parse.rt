ghost use Rattle.listing.specs.Text.{Parsed};
ghost use Rattle.listing.specs.Words.{First, After};

use crate::figures::figures;
use crate::line::Line;
use crate::word::Word;
use raster::shape::{Cell, Ends, Rect, Shape};

/// The line of which the bytes are the text, without a line feed. No other bytes are taken.
pub fn parse(bytes: &[u8]) -> Option<Line>
    ensures { Parsed bytes.now result }
{
    let (word, rest) = first_word(bytes)?;
    line_after(word, rest)
}

/// The word that the bytes begin with, and what follows it.
fn first_word(bytes: &[u8]) -> Option<(Word, &[u8])>
    ensures { First bytes.now result }
{
    for word in Word::ALL {
        if let Some(rest) = bytes.strip_prefix(word.spelling()) {
            return Some((word, rest));
        }
    }
    None
}

/// The line that begins with the word, of which the bytes are the figures.
fn line_after(word: Word, bytes: &[u8]) -> Option<Line>
    ensures { After word bytes.now result }
{
    match word {
        Word::Sheet => {
            let [width, height] = figures::<2>(bytes)?;
            Some(Line::Sheet { width, height })
        }
        Word::Box => {
            let [number, x, y, w, h, ink] = figures::<6>(bytes)?;
            let shape = Shape::Box(Rect { x, y, w, h });
            Some(Line::Shape { number, shape, ink })
        }
        Word::Line => {
            let [number, x0, y0, x1, y1, ink] = figures::<6>(bytes)?;
            let shape = Shape::Line(Ends { x0, y0, x1, y1 });
            Some(Line::Shape { number, shape, ink })
        }
        Word::Figure => {
            let [number, x, y, glyph, ink] = figures::<5>(bytes)?;
            let shape = Shape::Figure(Cell { x, y, glyph });
            Some(Line::Shape { number, shape, ink })
        }
        Word::Span => {
            let [number, shape, from, to, ink] = figures::<5>(bytes)?;
            Some(Line::Span {
                number,
                shape,
                from,
                to,
                ink,
            })
        }
        Word::Frame => {
            let [frame] = figures::<1>(bytes)?;
            Some(Line::Frame { frame })
        }
    }
}
