pub mod surfaces;

/// A surface of 3 by 2 pixels, row after row, that shows each ink at once.
#[derive(Clone, Copy)]
pub struct Card {
    pub inks: [u8; 6],
}
