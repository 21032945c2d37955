use extent::entry::Entry;
use extent::extent::Measured;
use extent::interval::Interval;
use extent::plane_box::PlaneBox;
use split::split::split;
use std::fmt;
use std::str::{FromStr, SplitWhitespace};

/// The number that the next word writes.
fn number<N: FromStr>(words: &mut SplitWhitespace) -> Option<N>
where
    N::Err: Drop,
{
    words.next()?.parse().ok()
}

/// A kind of extent that a line can hold.
trait Written: Measured + Copy {
    /// What stands in a row before it is read.
    const BLANK: Self;

    /// The extent that the next words write.
    fn read(words: &mut SplitWhitespace) -> Option<Self>;
}

impl Written for PlaneBox {
    const BLANK: PlaneBox = PlaneBox {
        left: 0,
        top: 0,
        right: 0,
        bottom: 0,
    };

    fn read(words: &mut SplitWhitespace) -> Option<PlaneBox> {
        Some(PlaneBox {
            left: number(words)?,
            top: number(words)?,
            right: number(words)?,
            bottom: number(words)?,
        })
    }
}

impl Written for Interval {
    const BLANK: Interval = Interval { first: 0, last: 0 };

    fn read(words: &mut SplitWhitespace) -> Option<Interval> {
        Some(Interval {
            first: number(words)?,
            last: number(words)?,
        })
    }
}

/// The letters by which nine extents are shared out.
#[derive(Drop)]
pub struct Letters([u8; 9]);

impl fmt::Display for Letters {
    fn fmt<W: fmt::Write>(&self, f: &mut fmt::Formatter<W>) -> fmt::Result {
        for letter in self.0 {
            write!(f, "{}", letter as char)?;
        }
        Ok(())
    }
}

/// An entry of a row, before it is read.
fn blank<M: Written>() -> Entry<M> {
    Entry {
        extent: M::BLANK,
        code: 0,
    }
}

/// The letters of the nine extents that the words write, if they write no more; the first eight go into the row.
// The row is the caller's: for a kind of any size it cannot be proved that eight entries fit into memory.
fn shared_out<M: Written>(row: &mut [Entry<M>], words: &mut SplitWhitespace) -> Option<Letters> {
    for place in row.iter_mut() {
        place.extent = M::read(words)?;
    }
    let last = M::read(words)?;
    if words.next().is_some() {
        return None;
    }
    Some(Letters(split(row, last)))
}

/// The letters of a line's nine extents: `boxes` or `intervals`, and then their ends.
pub fn letters_of(line: &str) -> Option<Letters> {
    let mut words = line.split_whitespace();
    match words.next()? {
        "boxes" => shared_out::<PlaneBox>(&mut [blank(); 8], &mut words),
        "intervals" => shared_out::<Interval>(&mut [blank(); 8], &mut words),
        _ => None,
    }
}
