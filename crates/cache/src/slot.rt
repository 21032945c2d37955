use raster::ink::Ink;

pub mod places;

/// One tile held back: its number, or none where the slot is empty, and an ink or nothing for each of its 256 places.
#[derive(Clone, Copy)]
pub struct Slot {
    tile: Option<u8>,
    inks: [Option<Ink>; 256],
}
