//! A tile: where it stands on a sheet, and handing its places down to a surface in the longest runs of one ink.
#![tactic(auto)]

pub mod down;
pub mod spot;
pub mod tile;
