//! A list of shapes, read from lines of text.
#![tactic(auto)]

pub use list_book::list;

pub mod fault;
pub mod reading;
