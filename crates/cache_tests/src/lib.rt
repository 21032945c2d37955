//! Tests of the tile cache, with a surface of their own that lets its pixels wait.
#![tactic(auto)]

#[cfg(test)]
mod tests;
pub mod waiting;
