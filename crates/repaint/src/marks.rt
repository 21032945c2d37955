pub mod sets;
pub mod tiles;

/// A set of numbers from 0 to 255: the tiles that are marked, or the shapes or spans that were found.
#[derive(Clone, Copy)]
pub struct Marks {
    // A flag for each number, and no set of the library's: those take heap, and this is fixed memory.
    flags: [bool; 256],
}
