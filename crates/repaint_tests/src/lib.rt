//! Tests of repainting, with a surface of their own that notes the runs it is handed.
#![tactic(auto)]

pub mod noting;
#[cfg(test)]
mod tests;
