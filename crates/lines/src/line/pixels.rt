ghost use Rattle.std.specs.Prelude.{◌≡◌, length};
ghost use Rattle.lines.specs.Lines.{pixels};

use super::Ends;
use std::ops::Range;

/// The pixels of a line that a walk along it has not passed yet.
#[derive(Drop)]
pub struct Pixels {
    pub(crate) line: Ends,
    pub(crate) places: Range<u32>,
    ghost ends: { places.end ≡ length (pixels line) },
}

impl Iterator for Pixels {
    ghost use Rattle.std.specs.Iterator.{YieldsFirst, item_count};
    ghost use Rattle.lines.specs.Walks.{left};

    type Item = (u16, u16);

    ghost next_gives = { YieldsFirst left };

    ghost remaining = { item_count left };

    #[tactic(auto, using(crate::proofs::Walks::passes_one))]
    fn next(&mut self) -> Option<(u16, u16)> {
        let place = self.places.next()?;
        self.line.pixel(place)
    }
}
