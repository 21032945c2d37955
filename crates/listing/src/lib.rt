//! The text of a sheet's listing, one line at a time.
#![tactic(auto)]

mod figures;
pub mod line;
pub mod parse;
mod word;
