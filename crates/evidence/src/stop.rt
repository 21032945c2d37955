use record::Rejection;
use std::alloc::AllocError;
use std::error::Error;
use std::{fmt, io};

/// Why the program stops early.
#[derive(Debug, Drop)]
pub enum Stop {
    /// A line was not taken.
    Rejected(Rejection),
    /// The arguments are not as they should be.
    Usage,
    /// No panel has that name.
    Panel(String),
    /// Reading or writing failed.
    Io(io::Error),
    /// There is no memory.
    Memory,
}

impl fmt::Display for Stop {
    fn fmt<W: fmt::Write>(&self, f: &mut fmt::Formatter<W>) -> fmt::Result {
        match self {
            Stop::Rejected(rejection) => write!(f, "{rejection}"),
            Stop::Usage => write!(f, "usage: evidence [--panel NAME] [FRAME.ppm] < LIST"),
            Stop::Panel(name) => write!(
                f,
                "evidence: no panel is named {name}: byte, plane, cached-byte, cached-plane, twice-cached-plane"
            ),
            Stop::Io(error) => write!(f, "evidence: {error}"),
            Stop::Memory => write!(f, "evidence: out of memory"),
        }
    }
}

impl Error for Stop {}

impl From<io::Error> for Stop {
    fn from(error: io::Error) -> Stop {
        Stop::Io(error)
    }
}

impl From<AllocError> for Stop {
    fn from(_error: AllocError) -> Stop {
        Stop::Memory
    }
}
