//! How nine entries are shared out into two groups: Guttman's quadratic split.
#![tactic(auto)]

pub mod choose;
mod group;
pub mod letter;
mod nine;
mod sharing;
pub mod split;
