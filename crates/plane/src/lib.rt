//! The plane surface: four planes of bits in lent memory.
#![tactic(auto)]

pub mod planes;
