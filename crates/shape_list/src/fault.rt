ghost use Rattle.std.specs.Prelude.{◌≡◌, Some};
ghost use Rattle.shape_list.specs.declared.fault.Fault.TheVariants.{Refused};
ghost use Rattle.shape_list.specs.Faults.{said};

use raster::refusal::Refusal;
use std::error::Error;
use std::fmt;

/// Why a line was not taken in.
#[derive(Clone, Copy, PartialEq, Eq, Debug)]
pub enum Fault {
    /// It is not a line of a sheet, or not in its place.
    Form,
    /// The sheet refuses it.
    Refused(Refusal),
}

impl From<Refusal> for Fault {
    ghost from_gives = { λ e r. r ≡ Refused e };

    fn from(e: Refusal) -> Fault {
        Fault::Refused(e)
    }
}

impl fmt::Display for Fault {
    ghost output = { λ e. Some (said e) };

    fn fmt<W: fmt::Write>(&self, f: &mut fmt::Formatter<W>) -> fmt::Result {
        match self {
            Fault::Form => write!(f, "not a line of a sheet"),
            Fault::Refused(refusal) => {
                let number = u8::from(*refusal);
                write!(f, "refused {number}")
            }
        }
    }
}

impl Error for Fault {}
