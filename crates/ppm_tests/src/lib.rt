//! Tests of the frames, on a small surface of their own.
#![tactic(auto)]

pub mod card;
#[cfg(test)]
mod tests;
