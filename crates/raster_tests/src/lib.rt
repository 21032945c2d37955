//! Tests of the shapes, their pixels and their bounds.
#![tactic(auto)]

#[cfg(test)]
mod tests;
