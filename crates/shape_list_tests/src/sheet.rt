ghost use Rattle.std.specs.Prelude.{◌≡◌, Some, None};
ghost use Rattle.raster.specs.Refusals.{number};
ghost use Rattle.shape_list.specs.declared.fault.Fault.TheVariants.{Form, Refused};

use raster::font::Font;
use shape_list::fault::Fault;
use shape_list::list::ShapeList;
use shape_list::reading::{start, take};
use std::test::Fail;

/// The number of the refusal, if the line was one of a sheet and in its place.
pub fn number(fault: Fault) -> Option<u8>
    ensures { elim fault [ Form ↦ result ≡ None | Refused refusal ↦ result ≡ Some (number refusal) ] }
{
    match fault {
        Fault::Form => None,
        Fault::Refused(refusal) => Some(u8::from(refusal)),
    }
}

/// The list that the lines make, each of which has to be taken in.
pub fn list_of(first: &[u8], lines: &[&[u8]]) -> Result<ShapeList, Fail> {
    let mut list = start(first)?;
    for line in lines {
        take(&mut list, line)?;
    }
    Ok(list)
}

/// The inks of the six pixels of a sheet of 3 by 2, row after row.
pub fn inks(list: ShapeList) -> [u8; 6] {
    let font = Font::built_in();
    let scene = list.scene(&font);
    [(0, 0), (1, 0), (2, 0), (0, 1), (1, 1), (2, 1)].map(|(x, y)| scene.ink_at(x, y))
}
