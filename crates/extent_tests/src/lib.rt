//! Tests of plane boxes and intervals, also where the first end is above the last.
#![tactic(auto)]

#[cfg(test)]
mod tests;
