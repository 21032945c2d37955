//! What a refresh needs below the sheet: marked tiles, ruling inks, the inks of a tile, and handing a tile down.
#![tactic(auto)]

pub mod area;
pub mod inks;
pub mod marks;
pub mod paint;
pub mod ruling;
pub mod tile;
