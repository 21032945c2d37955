//! The pixels of a line.
#![tactic(auto)]

pub mod line;
