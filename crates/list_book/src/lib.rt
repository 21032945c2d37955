//! A sheet as a list of shapes and spans by their numbers, with the refusals of a sheet.
#![tactic(auto)]

mod count;
pub mod list;
