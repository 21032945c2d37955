//! Tests of the quadratic split and of its choosing steps.
#![tactic(auto)]

#[cfg(test)]
mod tests;
